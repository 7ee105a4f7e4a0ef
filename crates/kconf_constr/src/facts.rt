ghost use Rattle.std.specs.Prelude.{◌≡◌, ◌<◌, ◌++◌, All, IfOk, OnOk, length, map};
ghost use Rattle.std.specs.List.{range_with_len};
ghost use Rattle.ut_logic.specs.declared.node.Node.TheVariants as node;
ghost use Rattle.kconf_constr.specs.Scope.{IsRising, whole, with_undeclared};
ghost use Rattle.kconf_constr.specs.FactsOf as spec;
ghost use Rattle.kconf_constr.specs.Closed.{IsClosed, ListsOuters, NamesNodes};
ghost use Rattle.kconf_constr.specs.Depth.{AreShallow};
ghost use Rattle.kconf_constr.specs.Folded.{HasFolded};
ghost use Rattle.kconf_constr.specs.Meaning.{SayRules, SayValid, SaysRight};

use crate::items::{mode_items, own_items, with_loose};
use crate::scope::Scope;
use kconf_tree::Tree;
use std::alloc::{AllocError, Global};
use ut_logic::{Fact, Facts, Node, Sequence, Text};

/// Adds the nodes of members.
fn add_members(members: &[u32], names: &mut Vec<Node>) -> Result<(), AllocError>
    ensures { OnOk result (names.new.items ≡ names.old.items ++ map (λ j. node.Sym j) members.now) }
{
    for member in members {
        names.push(Node::Sym(*member))?;
    }
    Ok(())
}

impl<'a> Scope<'a> {
    /// The nodes that the fact of a symbol names.
    fn symbol_names(&self, alloc: Global, sym: u32) -> Result<Vec<Node>, AllocError>
        requires { sym < length self.now.shape.symbols }
        ensures { IfOk result (λ v. v.items ≡ spec.names_by self.now.shape sym (spec.choice_of self.now.shape sym)) }
    {
        match self.tree().member_of(sym) {
            None => self.tree().symbol_references(alloc, sym),
            Some(choice) => Ok(vec![in alloc; Node::Choice(choice)]?),
        }
    }

    /// The fact of a symbol.
    fn symbol_fact(&self, alloc: Global, sym: u32) -> Result<Fact, AllocError>
        requires { sym < length self.now.shape.symbols }
        ensures { IfOk result (λ f. f ≡ spec.symbol_fact self.now sym) }
    {
        let holds = self.symbol_holds(alloc, sym)?;
        let own = own_items(alloc, self.tree().counts_as(sym), sym)?;
        let items = with_loose(alloc, own, &holds)?;
        let names = self.symbol_names(alloc, sym)?;
        Ok(Fact {
            node: Node::Sym(sym),
            holds: Sequence::from_vec(holds),
            defines: Sequence::new(alloc),
            names: Sequence::from_vec(names),
            items: Sequence::from_vec(items),
        })
    }

    /// The nodes that the fact of a choice names.
    fn choice_names(&self, alloc: Global, choice: u32) -> Result<Vec<Node>, AllocError>
        requires { choice < length self.now.shape.choices }
        ensures { IfOk result (λ v. v.items ≡ spec.choice_names self.now.shape choice) }
    {
        let mut names = Vec::new(alloc);
        add_members(self.tree().choice_at(choice).members.as_slice(), &mut names)?;
        let mut more = self.tree().choice_references(alloc, choice)?;
        names.append(&mut more)?;
        Ok(names)
    }

    /// The fact of a choice.
    fn choice_fact(&self, alloc: Global, choice: u32) -> Result<Fact, AllocError>
        requires { choice < length self.now.shape.choices }
        ensures { IfOk result (λ f. f ≡ spec.choice_fact self.now choice) }
    {
        let holds = self.choice_holds(alloc, choice)?;
        let own = mode_items(alloc, self.tree().choice_counts(choice), choice)?;
        let items = with_loose(alloc, own, &holds)?;
        let names = self.choice_names(alloc, choice)?;
        Ok(Fact {
            node: Node::Choice(choice),
            holds: Sequence::from_vec(holds),
            defines: Sequence::new(alloc),
            names: Sequence::from_vec(names),
            items: Sequence::from_vec(items),
        })
    }

    /// The facts of the symbols.
    fn symbol_facts(&self, alloc: Global) -> Result<Vec<Fact>, AllocError>
        ensures { IfOk result (λ v. v.items ≡ map (spec.symbol_fact self.now) (range_with_len 0 (length self.now.shape.symbols))) }
    {
        let mut facts = Vec::new(alloc);
        for sym in 0..self.tree().symbols() {
            facts.push(self.symbol_fact(alloc, sym)?)?;
        }
        Ok(facts)
    }

    /// The facts of the choices.
    fn choice_facts(&self, alloc: Global) -> Result<Vec<Fact>, AllocError>
        ensures { IfOk result (λ v. v.items ≡ map (spec.choice_fact self.now) (range_with_len 0 (length self.now.shape.choices))) }
    {
        let mut facts = Vec::new(alloc);
        for choice in 0..self.tree().choices() {
            facts.push(self.choice_fact(alloc, choice)?)?;
        }
        Ok(facts)
    }

    /// All facts.
    fn facts(&self, alloc: Global) -> Result<Facts, AllocError>
        ensures { IfOk result (λ f. f.list ≡ spec.facts_of self.now) }
    {
        let mut facts = self.symbol_facts(alloc)?;
        let mut more = self.choice_facts(alloc)?;
        facts.append(&mut more)?;
        Ok(Facts {
            list: Sequence::from_vec(facts),
        })
    }
}

/// One fact for each symbol, in order, and then one for each choice, where every undeclared name is n. The only
/// error is out of memory.
///
/// Rule: Linux kconfig-language, "Menu attributes", "Menu dependencies" and "Menu structure"; the formulas are
/// this project's rule.
pub fn constraints(alloc: Global, tree: &Tree) -> Result<Facts, AllocError>
    ensures facts { IfOk result (λ f. f.list ≡ spec.facts_of (whole tree.now.shape)) }
    ensures closed { IfOk result (λ f. All (IsClosed (whole tree.now.shape)) f.list) }
    ensures named { IfOk result (λ f. All (NamesNodes tree.now.shape) f.list) }
    ensures outers { IfOk result (λ f. All ListsOuters f.list) }
    ensures depth { IfOk result (λ f. AreShallow tree.now.shape f.list) }
    ensures folded { IfOk result (λ f. All HasFolded f.list) }
    ensures means { IfOk result (λ f. All (SaysRight (whole tree.now.shape)) f.list) }
    ensures valid { IfOk result (λ f. SayValid tree.now.shape f.list) }
{
    let _order = tree.order();
    Scope::whole(tree).facts(alloc)
}

/// The same facts where each of these undeclared names, which rise by their bytes, may be y: its number in the
/// list is that of its item. The only error is out of memory.
pub fn free_constraints(
    alloc: Global,
    tree: &Tree,
    undeclared: &[Text],
) -> Result<Facts, AllocError>
    requires { IsRising undeclared.now }
    ensures facts { IfOk result (λ f. f.list ≡ spec.facts_of (with_undeclared tree.now.shape undeclared.now)) }
    ensures closed { IfOk result (λ f. All (IsClosed (with_undeclared tree.now.shape undeclared.now)) f.list) }
    ensures named { IfOk result (λ f. All (NamesNodes tree.now.shape) f.list) }
    ensures outers { IfOk result (λ f. All ListsOuters f.list) }
    ensures depth { IfOk result (λ f. AreShallow tree.now.shape f.list) }
    ensures folded { IfOk result (λ f. All HasFolded f.list) }
    ensures means { IfOk result (λ f. All (SaysRight (with_undeclared tree.now.shape undeclared.now)) f.list) }
    ensures valid { IfOk result (λ f. SayRules (with_undeclared tree.now.shape undeclared.now) f.list) }
{
    let _order = tree.order();
    Scope::with_undeclared(tree, undeclared).facts(alloc)
}
