ghost use Rattle.std.specs.Prelude.{◌≡◌, ◌<◌, length, map, All, IfOk};
ghost use Rattle.ut_logic.specs.declared.node.Node.TheVariants as one;
ghost use Rattle.kconf_tree.specs.References.{choice_references, node_of, references_of, symbol_references};

use crate::parts::Parts;
use crate::tree::Tree;
use sqlite_items::Items;
use std::alloc::{AllocError, Global};
use ut_logic::Node;

impl Parts {
    /// The nodes of symbols.
    fn nodes(&self, alloc: Global, symbols: &[u32]) -> Result<Vec<Node>, AllocError>
        requires { All (λ k. k < length self.now.symbols) symbols.now }
        ensures { IfOk result (λ v. v.items ≡ map (node_of self.now) symbols.now) }
    {
        let mut nodes = Vec::with_capacity(alloc, symbols.len())?;
        for symbol in symbols {
            nodes.push(self.node_of(*symbol))?;
        }
        Ok(nodes)
    }
}

impl Tree {
    /// The symbols that a symbol refers to that is no member, in order. The only error is out of memory.
    pub fn symbol_numbers(&self, alloc: Global, sym: u32) -> Result<Items<u32>, AllocError>
        requires { sym < length self.now.shape.symbols }
        ensures numbers { IfOk result (λ row. row ≡ symbol_references self.now.shape sym) }
        ensures within { IfOk result (λ row. All (λ k. k < length self.now.shape.symbols) row) }
    {
        let mut row = Items::new(alloc);
        self.parts.mention_symbol(sym, &self.links, &mut row)?;
        Ok(row)
    }

    /// The symbols that a choice with its members refers to, in order. The only error is out of memory.
    pub fn choice_numbers(&self, alloc: Global, choice: u32) -> Result<Items<u32>, AllocError>
        requires { choice < length self.now.shape.choices }
        ensures numbers { IfOk result (λ row. row ≡ choice_references self.now.shape choice) }
        ensures within { IfOk result (λ row. All (λ k. k < length self.now.shape.symbols) row) }
    {
        let mut row = Items::new(alloc);
        self.parts.mention_choice(choice, &self.links, &mut row)?;
        Ok(row)
    }

    /// The nodes that a symbol refers to that is no member, in order. The only error is out of memory.
    pub fn symbol_references(&self, alloc: Global, sym: u32) -> Result<Vec<Node>, AllocError>
        requires { sym < length self.now.shape.symbols }
        ensures { IfOk result (λ v. v.items ≡ references_of self.now.shape (one.Sym sym)) }
    {
        let row = self.symbol_numbers(alloc, sym)?;
        self.parts.nodes(alloc, row.as_slice())
    }

    /// The nodes that a choice with its members refers to, in order. The only error is out of memory.
    pub fn choice_references(&self, alloc: Global, choice: u32) -> Result<Vec<Node>, AllocError>
        requires { choice < length self.now.shape.choices }
        ensures { IfOk result (λ v. v.items ≡ references_of self.now.shape (one.Choice choice)) }
    {
        let row = self.choice_numbers(alloc, choice)?;
        self.parts.nodes(alloc, row.as_slice())
    }
}
