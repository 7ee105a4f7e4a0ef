//! The run of a source: which of its blocks are on under a start.

ghost use Rattle.std.specs.Prelude.{◌≡◌, ◌++◌, ◌∷◌, [], List, map, IfOk, OnOk};
ghost use Rattle.std.specs.List.{list_all, list_any};
ghost use Rattle.cpp_blocks.specs.Counted.{IsCounted};
ghost use Rattle.cpp_directives.specs.declared.directive.Directive as declared;
ghost use Rattle.cpp_blocks.specs.Run as run;
ghost use Rattle.cpp_blocks.specs.RunSteps as spec;
ghost use Rattle.cpp_blocks.specs.StartWith.{start_with};

use crate::blocks::Blocks;
use crate::pieces::PieceOf;
use crate::run_blocks::RunBlocks;
use crate::run_states::{RunStates, is_defined, is_true};
use crate::state::MacroState;
use crate::turns::Turns;
use cpp_directives::{Cond, Directive, Gives, What};
use indexmap::IndexSet;
use std::alloc::{AllocError, Global};
use ut_logic::Text;

/// What a run finds: whether the source is built, the state of each macro at the start in the order of
/// `macro_names`, the truth of each opaque piece in the order of `pieces`, and the lines of the `#define`s whose body
/// is no number and gives a true macro. Past the end of a list a macro is undefined, and a piece false.
#[derive(Drop)]
pub struct RunStart {
    pub built: bool,
    pub macros: Vec<MacroState>,
    pub pieces: Vec<bool>,
    pub lines: IndexSet<u32>,
}

/// A place in a run: the blocks of the source, what the run finds, and the macro lines passed so far.
#[derive(Clone, Copy)]
pub struct RunPlace<'a> {
    pub blocks: &'a Blocks,
    pub start: &'a RunStart,
    pub turns: &'a Turns,
}

/// Where a run stands: the blocks so far, and the states that macro lines gave.
#[derive(Drop)]
pub struct RunSoFar {
    pub blocks: RunBlocks,
    pub states: RunStates,
}

/// The state of a macro at the start.
fn first_state(place: &RunPlace, name: &Text) -> MacroState
    ensures { result ≡ (spec.start_at place.now).macros name.now }
{
    match place.start.macros.get(place.blocks.number_of(name)) {
        Some(state) => *state,
        None => MacroState::Undefined,
    }
}

/// The state of a macro there.
fn state_of(place: &RunPlace, states: &RunStates, name: &Text) -> MacroState
    ensures { result ≡ spec.state_at place.now states.now name.now }
{
    states.of(name, first_state(place, name))
}

/// The truth of a piece there.
fn piece_holds(alloc: Global, place: &RunPlace, text: &Text) -> Result<bool, AllocError>
    ensures { IfOk result (λ b. b ≡ spec.piece_at place.now text.now) }
{
    let turn = place.turns.of_piece(alloc, text)?;
    let text = text.copy(alloc)?;
    let number = place.blocks.piece_number(&PieceOf { text, turn });
    match place.start.pieces.get(number) {
        Some(truth) => Ok(*truth),
        None => Ok(false),
    }
}

/// Whether a condition holds there.
#[cycle(holding)]
fn holds(
    alloc: Global,
    place: &RunPlace,
    states: &RunStates,
    cond: &Cond,
) -> Result<bool, AllocError>
    ensures { IfOk result (λ b. b ≡ spec.holds_at place.now states.now cond.now) }
{
    match cond {
        Cond::Const(value) => Ok(*value),
        Cond::Defined(name) => Ok(is_defined(state_of(place, states, name))),
        Cond::Plain(name) => Ok(is_true(state_of(place, states, name))),
        Cond::Piece(text) => piece_holds(alloc, place, text),
        Cond::Neg(inner) => {
            let inner = holds(alloc, place, states, inner.get())?;
            Ok(!inner)
        }
        Cond::AllOf(list) => all_hold(alloc, place, states, list.as_slice()),
        Cond::AnyOf(list) => any_holds(alloc, place, states, list.as_slice()),
    }
}

/// Whether each condition holds there.
#[cycle(holding)]
fn all_hold(
    alloc: Global,
    place: &RunPlace,
    states: &RunStates,
    list: &[Cond],
) -> Result<bool, AllocError>
    ensures { IfOk result (λ b. b ≡ list_all (λ b. b) (map (spec.holds_at place.now states.now) list.now)) }
{
    let mut all = true;
    for part in list {
        let one = holds(alloc, place, states, part)?;
        all = all && one;
    }
    Ok(all)
}

/// Whether some condition holds there.
#[cycle(holding)]
fn any_holds(
    alloc: Global,
    place: &RunPlace,
    states: &RunStates,
    list: &[Cond],
) -> Result<bool, AllocError>
    ensures { IfOk result (λ b. b ≡ list_any (λ b. b) (map (spec.holds_at place.now states.now) list.now)) }
{
    let mut any = false;
    for part in list {
        let one = holds(alloc, place, states, part)?;
        any = any || one;
    }
    Ok(any)
}

/// The state that a `#define` on this line gives.
fn given(start: &RunStart, line: u32, gives: Gives) -> MacroState
    ensures { (ds : List declared.Directive) → result ≡ run.given (start_with ds start.now) line gives }
{
    match gives {
        Gives::Zero => MacroState::DefinedFalse,
        Gives::Nonzero => MacroState::DefinedTrue,
        Gives::Free => {
            if start.lines.contains(&line) {
                MacroState::DefinedTrue
            } else {
                MacroState::DefinedFalse
            }
        }
    }
}

impl RunSoFar {
    /// A run begins in block 0.
    fn new(alloc: Global, built: bool) -> Result<RunSoFar, AllocError>
        ensures { IfOk result (λ s. (start : run.Start) → built ≡ start.built → spec.StandsAs start s (run.beginning start)) }
    {
        let blocks = RunBlocks::new(alloc, built)?;
        let states = RunStates::new(alloc);
        Ok(RunSoFar { blocks, states })
    }

    /// A macro line gives a macro this state, where it stands in a block that is on.
    fn set(&mut self, alloc: Global, name: &Text, state: MacroState) -> Result<(), AllocError>
        ensures { OnOk result ((start : run.Start) (r : run.Running) → spec.StandsAs start self.old r → spec.StandsAs start self.new (run.sets r name.now state)) }
    {
        if self.blocks.is_on() {
            self.states.set(alloc, name, state)?;
        }
        Ok(())
    }

    /// Passes a directive.
    fn pass(
        &mut self,
        alloc: Global,
        place: &RunPlace,
        directive: &Directive,
    ) -> Result<(), AllocError>
        ensures { OnOk result ((r : run.Running) → IsCounted place.now.turns.now r.touched → spec.StandsAs (spec.start_at place.now) self.old r → spec.StandsAs (spec.start_at place.now) self.new (run.step (spec.start_at place.now) r directive.now)) }
    {
        match &directive.what {
            What::If(cond) => {
                let holds_there = holds(alloc, place, &self.states, cond)?;
                self.blocks.open(holds_there)
            }
            What::Elif(cond) => {
                let holds_there = holds(alloc, place, &self.states, cond)?;
                self.blocks.turn(holds_there)
            }
            What::Else => self.blocks.turn(true),
            What::Endif => {
                self.blocks.close();
                Ok(())
            }
            What::Define { name, gives } => {
                let state = given(place.start, directive.line, *gives);
                self.set(alloc, name, state)
            }
            What::Undef { name } => self.set(alloc, name, MacroState::Undefined),
        }
    }
}

/// For each block of a source, from the file on, whether it is on in the run from this start. The only error is want
/// of memory.
///
/// Rule: ISO C, "Conditional inclusion" and "Macro replacement"; the three states of a macro are this project's.
pub fn blocks_on(alloc: Global, blocks: &Blocks, start: &RunStart) -> Result<Vec<bool>, AllocError>
    ensures { IfOk result (λ v. v.items ≡ (run.run_of (start_with blocks.now start.now) blocks.now).blocks) }
{
    let mut so_far = RunSoFar::new(alloc, start.built)?;
    let mut turns = Turns::new(alloc);
    for directive in blocks.directives() {
        let place = RunPlace {
            blocks,
            start,
            turns: &turns,
        };
        so_far.pass(alloc, &place, directive)?;
        turns.pass(alloc, &directive.what)?;
    }
    let RunSoFar { blocks: on, .. } = so_far;
    Ok(on.into_blocks())
}
