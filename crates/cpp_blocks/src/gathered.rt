ghost use Rattle.std.specs.Prelude.{◌≡◌, ◌<◌, ◌++◌, ◌∷◌, [], map, length, IfOk, OnOk, option_to_list};
ghost use Rattle.cpp_blocks.specs.Facts as facts;
ghost use Rattle.cpp_blocks.specs.Gathered as spec;

use crate::starts::{BuiltOf, StartOf};
use std::alloc::{AllocError, Global};
use std::marker::Model;
use ut_logic::{Definition, Fact, Facts, Formula, Item, Node, Sequence, any_of, not_of};

/// The facts so far: those of blocks, and for each macro name those of its states.
#[derive(Drop)]
pub struct Gathered {
    blocks: Vec<Fact>,
    states: Vec<Vec<Fact>>,
}

impl Model for Gathered {
    ghost use Rattle.std.specs.Prelude.{map};
    ghost use Rattle.cpp_blocks.specs.Gathered.{Gathered};
    ghost use Rattle.ut_logic.specs.contracts.formula.Formula as e;
    ghost use Rattle.std.specs.Coded.{codes};

    ghost Value = { Gathered };

    ghost coded = { Prim.hlevel (codes, e.the_row.coded) };

    ghost view = { λ g. record { blocks = g.blocks.items; states = map (λ list. list.items) g.states.items } };
}

impl Gathered {
    /// The facts of the file and of each macro at the start.
    pub fn new(
        alloc: Global,
        file: u32,
        starts: &[StartOf],
        built: BuiltOf,
    ) -> Result<Gathered, AllocError>
        ensures { IfOk result (λ g. g ≡ record { blocks = facts.file_fact file built ∷ []; states = spec.lists_from file [] 0 starts.now }) }
    {
        let built = file_fact(alloc, file, built)?;
        let states = start_lists(alloc, file, starts)?;
        Ok(Gathered {
            blocks: vec![in alloc; built]?,
            states,
        })
    }

    /// One more fact, if there is one.
    pub fn put(&mut self, fact: Option<Fact>) -> Result<(), AllocError>
        ensures { OnOk result (self.new ≡ spec.put_all self.old (option_to_list fact)) }
    {
        match fact {
            Some(fact) => self.put_one(fact),
            None => Ok(()),
        }
    }

    /// Puts a fact where facts of its kind of node stand.
    fn put_one(&mut self, fact: Fact) -> Result<(), AllocError>
        ensures { OnOk result (self.new ≡ spec.put_by fact.node fact self.old) }
    {
        match fact.node {
            Node::Block { .. } => {
                self.blocks.push(fact)?;
                Ok(())
            }
            Node::State { name, .. } => put_at(&mut self.states, name, fact),
            Node::Sym(_) => Ok(()),
            Node::Choice(_) => Ok(()),
        }
    }

    /// All facts: those of blocks, and then those of each name.
    pub fn into_facts(self) -> Result<Facts, AllocError>
        ensures { IfOk result (λ f. f.list ≡ spec.all_gathered self) }
    {
        let Gathered { mut blocks, states } = self;
        for list in states {
            let mut more = list;
            blocks.append(&mut more)?;
        }
        Ok(Facts {
            list: Sequence::from_vec(blocks),
        })
    }
}

/// Adds a fact to those of the name with this number.
fn put_at(states: &mut Vec<Vec<Fact>>, name: u32, fact: Fact) -> Result<(), AllocError>
    ensures { OnOk result (map (λ list. list.items) states.new.items ≡ spec.put_at name fact (map (λ list. list.items) states.old.items)) }
{
    let place = name as usize;
    if place < states.len() {
        let list = &mut states[place];
        list.push(fact)?;
    }
    Ok(())
}

/// The fact of the file.
fn file_fact(alloc: Global, file: u32, built: BuiltOf) -> Result<Fact, AllocError>
    ensures { IfOk result (λ f. f ≡ facts.file_fact file built) }
{
    let BuiltOf {
        formula,
        names,
        items: more,
    } = built;
    let item = Item::Block { file, block: 0 };
    let mut items = vec![in alloc; item]?;
    items.extend_from_slice(more.as_slice())?;
    Ok(Fact {
        node: Node::Block { file, block: 0 },
        holds: Sequence::new(alloc),
        defines: Sequence::from_vec(vec![in alloc; Definition { item, formula }]?),
        names,
        items: Sequence::from_vec(items),
    })
}

/// Whether the formula is the item of a free start.
fn is_free(file: u32, name: u32, start: &StartOf) -> bool
    ensures { result ≡ facts.is_free file name start.now }
{
    match &start.d {
        Formula::Is(Item::StartD { file: f, name: n }) => *f == file && *n == name,
        _ => false,
    }
}

/// What holds of a macro at the start.
fn start_holds(
    alloc: Global,
    file: u32,
    name: u32,
    start: &StartOf,
) -> Result<Vec<Formula>, AllocError>
    ensures { IfOk result (λ v. v.items ≡ facts.start_holds file name start.now) }
{
    if !is_free(file, name, start) {
        return Ok(Vec::new(alloc));
    }
    let untrue = not_of(alloc, start.t.copy(alloc)?)?;
    let defined = start.d.copy(alloc)?;
    let implied = any_of(vec![in alloc; untrue, defined]?);
    Ok(vec![in alloc; implied]?)
}

/// The fact of a macro at the start.
fn start_fact(alloc: Global, file: u32, name: u32, start: &StartOf) -> Result<Fact, AllocError>
    ensures { IfOk result (λ f. f ≡ facts.start_fact file name start.now) }
{
    let d = Item::StateD {
        file,
        name,
        turn: 0,
    };
    let t = Item::StateT {
        file,
        name,
        turn: 0,
    };
    let holds = start_holds(alloc, file, name, start)?;
    let defined = Definition {
        item: d,
        formula: start.d.copy(alloc)?,
    };
    let truth = Definition {
        item: t,
        formula: start.t.copy(alloc)?,
    };
    let names = Vec::from_slice(alloc, start.names.as_slice())?;
    let mut items = vec![in alloc; d, t]?;
    items.extend_from_slice(start.items.as_slice())?;
    Ok(Fact {
        node: Node::State {
            file,
            name,
            turn: 0,
        },
        holds: Sequence::from_vec(holds),
        defines: Sequence::from_vec(vec![in alloc; defined, truth]?),
        names: Sequence::from_vec(names),
        items: Sequence::from_vec(items),
    })
}

/// For each macro name the fact of its start.
fn start_lists(alloc: Global, file: u32, starts: &[StartOf]) -> Result<Vec<Vec<Fact>>, AllocError>
    ensures { IfOk result (λ v. map (λ list. list.items) v.items ≡ spec.lists_from file [] 0 starts.now) }
{
    let mut lists = Vec::with_capacity(alloc, starts.len())?;
    for (place, start) in starts.iter().enumerate() {
        let name = u32::try_from(place).map_err(|_| AllocError)?;
        let fact = start_fact(alloc, file, name, start)?;
        lists.push(vec![in alloc; fact]?)?;
    }
    Ok(lists)
}
