//! The facts of blocks and of macro lines.

ghost use Rattle.std.specs.Prelude.{◌≡◌, ◌++◌, ◌∷◌, [], map, filter, IfOk};
ghost use Rattle.ut_logic.specs.Truth.{mentioned};
ghost use Rattle.ut_logic.specs.Fold as fold;
ghost use Rattle.cpp_blocks.specs.Places.{group_at, state_at, defined_before_at, true_before_at, unless_on_at, defined_by_define_at, true_by_define_at, define_at, undef_at};
ghost use Rattle.cpp_blocks.specs.Steps as spec;

use crate::blocks::Blocks;
use crate::conditions::{defined_item, state_node, true_item};
use cpp_directives::Gives;
use std::alloc::{AllocError, Global};
use ut_logic::{
    Definition, Fact, Formula, Item, Node, Sequence, Text, all_of, any_of, mention, not_of,
};

/// A group of a chain: its block, the block round the chain, the groups before it, and the states that its
/// condition refers to.
#[derive(Clone, Copy)]
pub struct Group<'a> {
    pub file: u32,
    pub block: u32,
    pub parent: u32,
    pub earlier: &'a [u32],
    pub states: &'a [Node],
}

/// A macro line in a block: the macro's name, and how many of its lines stand before this one.
#[derive(Clone, Copy)]
pub struct MacroLine<'a> {
    pub file: u32,
    pub blocks: &'a Blocks,
    pub block: u32,
    pub name: &'a Text,
    pub turn: u32,
}

/// The block is on.
fn on(file: u32, block: u32) -> Formula
    ensures { result ≡ Formula.Is (Item.Block file block) }
{
    Formula::Is(Item::Block { file, block })
}

/// The block is off.
fn off(alloc: Global, file: u32, block: u32) -> Result<Formula, AllocError>
    ensures { IfOk result (λ f. f ≡ fold.not_of (Formula.Is (Item.Block file block))) }
{
    not_of(alloc, on(file, block))
}

/// The parent is on, and no earlier group is.
fn turn_formulas(
    alloc: Global,
    file: u32,
    parent: u32,
    earlier: &[u32],
) -> Result<Vec<Formula>, AllocError>
    ensures { IfOk result (λ v. v.items ≡ Formula.Is (Item.Block file parent) ∷ map (λ group. fold.not_of (Formula.Is (Item.Block file group))) earlier.now) }
{
    let mut list = vec![in alloc; on(file, parent)]?;
    for group in earlier {
        list.push(off(alloc, file, *group)?)?;
    }
    Ok(list)
}

/// A group is on where its parent is, no earlier group is, and its condition holds.
fn group_formula(
    alloc: Global,
    file: u32,
    parent: u32,
    earlier: &[u32],
    cond: Formula,
) -> Result<Formula, AllocError>
    ensures { IfOk result (λ f. f ≡ spec.group_formula file parent earlier.now cond) }
{
    let mut list = turn_formulas(alloc, file, parent, earlier)?;
    list.push(cond)?;
    Ok(all_of(list))
}

/// Whether an item is that of a piece.
fn is_piece(item: Item) -> bool
    ensures { result ≡ spec.is_piece item }
{
    matches!(item, Item::Piece { .. })
}

/// Lets all go but the pieces.
fn keep_pieces(items: &mut Vec<Item>)
    ensures { items.new.items ≡ filter spec.is_piece items.old.items }
{
    items.retain(|item| is_piece(*item));
}

/// The block's own item, and those of the pieces in its formula.
fn block_items(alloc: Global, own: Item, formula: &Formula) -> Result<Vec<Item>, AllocError>
    ensures { IfOk result (λ items. items.items ≡ own ∷ filter spec.is_piece (mentioned formula.now)) }
{
    let mut found = Vec::new(alloc);
    mention(formula, &mut found)?;
    keep_pieces(&mut found);
    let mut items = vec![in alloc; own]?;
    items.extend_from_slice(&found)?;
    Ok(items)
}

/// The block's parent, its earlier groups, and the states in its condition.
fn block_names(
    alloc: Global,
    file: u32,
    parent: u32,
    earlier: &[u32],
    states: &[Node],
) -> Result<Vec<Node>, AllocError>
    ensures { IfOk result (λ names. names.items ≡ Node.Block file parent ∷ map (λ group. Node.Block file group) earlier.now ++ states.now) }
{
    let mut names = vec![in alloc;
        Node::Block {
            file,
            block: parent
        },
    ]?;
    for block in earlier {
        names.push(Node::Block {
            file,
            block: *block,
        })?;
    }
    names.extend_from_slice(states)?;
    Ok(names)
}

/// The fact of a group with this condition.
pub fn group_fact(alloc: Global, group: &Group, cond: Formula) -> Result<Fact, AllocError>
    ensures { IfOk result (λ fact. fact ≡ group_at group.now cond) }
{
    let (file, block) = (group.file, group.block);
    let formula = group_formula(alloc, file, group.parent, group.earlier, cond)?;
    let item = Item::Block { file, block };
    let items = block_items(alloc, item, &formula)?;
    let names = block_names(alloc, file, group.parent, group.earlier, group.states)?;
    let defines = vec![in alloc; Definition { item, formula }]?;
    Ok(Fact {
        node: Node::Block { file, block },
        holds: Sequence::new(alloc),
        defines: Sequence::from_vec(defines),
        names: Sequence::from_vec(names),
        items: Sequence::from_vec(items),
    })
}

/// The fact of a macro's state after a line of it, where these formulas say when it is defined and when true.
fn state_fact(
    alloc: Global,
    line: &MacroLine,
    d: Formula,
    t: Formula,
    more: &[Item],
) -> Result<Fact, AllocError>
    ensures { IfOk result (λ fact. fact ≡ state_at line.now d t more.now) }
{
    let (file, blocks, name) = (line.file, line.blocks, line.name);
    let next = line.turn.checked_add(1).ok_or(AllocError)?;
    let defined = defined_item(file, blocks, name, next)?;
    let truth = true_item(file, blocks, name, next)?;
    let mut items = vec![in alloc; defined, truth]?;
    items.extend_from_slice(more)?;
    let earlier = state_node(file, blocks, name, line.turn)?;
    let block = Node::Block {
        file,
        block: line.block,
    };
    let defines = vec![in alloc;
        Definition {
            item: defined,
            formula: d
        },
        Definition {
            item: truth,
            formula: t
        },
    ]?;
    Ok(Fact {
        node: state_node(file, blocks, name, next)?,
        holds: Sequence::new(alloc),
        defines: Sequence::from_vec(defines),
        names: Sequence::from_vec(vec![in alloc; earlier, block]?),
        items: Sequence::from_vec(items),
    })
}

/// The truth that a `#define` gives.
fn given_truth(file: u32, line: u32, gives: Gives) -> Formula
    ensures { result ≡ spec.given_truth file line gives }
{
    match gives {
        Gives::Zero => Formula::No,
        Gives::Nonzero => Formula::Yes,
        Gives::Free => Formula::Is(Item::Line { file, line }),
    }
}

/// The item of a free `#define`.
fn given_items(alloc: Global, file: u32, line: u32, gives: Gives) -> Result<Vec<Item>, AllocError>
    ensures { IfOk result (λ items. items.items ≡ spec.given_items file line gives) }
{
    match gives {
        Gives::Zero => Ok(Vec::new(alloc)),
        Gives::Nonzero => Ok(Vec::new(alloc)),
        Gives::Free => Ok(vec![in alloc; Item::Line { file, line }]?),
    }
}

/// The macro is defined before this line.
fn defined_before(line: &MacroLine) -> Result<Formula, AllocError>
    ensures { IfOk result (λ f. f ≡ defined_before_at line.now) }
{
    let item = defined_item(line.file, line.blocks, line.name, line.turn)?;
    Ok(Formula::Is(item))
}

/// The macro is true before this line.
fn true_before(line: &MacroLine) -> Result<Formula, AllocError>
    ensures { IfOk result (λ f. f ≡ true_before_at line.now) }
{
    let item = true_item(line.file, line.blocks, line.name, line.turn)?;
    Ok(Formula::Is(item))
}

/// The block is off, and it was so before.
fn unless_on(alloc: Global, line: &MacroLine, before: Formula) -> Result<Formula, AllocError>
    ensures { IfOk result (λ f. f ≡ unless_on_at line.now before) }
{
    Ok(all_of(vec![in alloc; off(alloc, line.file, line.block)?, before]?))
}

/// When the macro is defined after a `#define`.
fn defined_by_define(alloc: Global, line: &MacroLine) -> Result<Formula, AllocError>
    ensures { IfOk result (λ f. f ≡ defined_by_define_at line.now) }
{
    let before = defined_before(line)?;
    Ok(any_of(vec![in alloc; on(line.file, line.block), before]?))
}

/// When the macro is true after a `#define` that stands on this physical line.
fn true_by_define(
    alloc: Global,
    line: &MacroLine,
    number: u32,
    gives: Gives,
) -> Result<Formula, AllocError>
    ensures { IfOk result (λ f. f ≡ true_by_define_at line.now number gives) }
{
    let truth = given_truth(line.file, number, gives);
    let given = all_of(vec![in alloc; on(line.file, line.block), truth]?);
    let kept = unless_on(alloc, line, true_before(line)?)?;
    Ok(any_of(vec![in alloc; given, kept]?))
}

/// The fact of a `#define` that stands on this physical line.
pub fn define_fact(
    alloc: Global,
    line: &MacroLine,
    number: u32,
    gives: Gives,
) -> Result<Fact, AllocError>
    ensures { IfOk result (λ fact. fact ≡ define_at line.now number gives) }
{
    let d = defined_by_define(alloc, line)?;
    let t = true_by_define(alloc, line, number, gives)?;
    let more = given_items(alloc, line.file, number, gives)?;
    state_fact(alloc, line, d, t, &more)
}

/// The fact of an `#undef`.
pub fn undef_fact(alloc: Global, line: &MacroLine) -> Result<Fact, AllocError>
    ensures { IfOk result (λ fact. fact ≡ undef_at line.now) }
{
    let d = unless_on(alloc, line, defined_before(line)?)?;
    let t = unless_on(alloc, line, true_before(line)?)?;
    state_fact(alloc, line, d, t, &[])
}
