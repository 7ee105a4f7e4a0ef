ghost use Rattle.std.specs.Prelude.{◌≡◌, OnOk, if◌then◌else◌};
ghost use Rattle.ut_text.specs.Bytes.{Bytes};
ghost use Rattle.ut_text.specs.Text.{text_eq};
ghost use Rattle.cpp_blocks.specs.Run as run;
ghost use Rattle.cpp_blocks.specs.RunGiven.{state_in};
ghost use Rattle.cpp_blocks.specs.declared.state.MacroState as declared;

use crate::state::MacroState;
use indexmap::IndexMap;
use std::alloc::{AllocError, Global};
use ut_logic::Text;

/// The state that the latest macro line gave to each name, of the lines that stand in blocks that are on.
#[derive(Drop)]
pub struct RunStates {
    given: IndexMap<Text, MacroState>,
}

impl RunStates {
    /// No macro line was passed.
    pub fn new(alloc: Global) -> RunStates
        ensures { (first : declared.MacroState) (name : Bytes) → state_in first result name ≡ first }
    {
        RunStates {
            given: IndexMap::new(alloc),
        }
    }

    /// The state of a name, which had this one first.
    pub fn of(&self, name: &Text, first: MacroState) -> MacroState
        ensures { result ≡ state_in first self.now name.now }
    {
        self.given.get(name).copied().unwrap_or(first)
    }

    /// A macro line gives a name this state.
    pub fn set(&mut self, alloc: Global, name: &Text, state: MacroState) -> Result<(), AllocError>
        ensures { OnOk result ((first : declared.MacroState) (x : Bytes) → state_in first self.new x ≡ (if text_eq name.now x then state else state_in first self.old x)) }
    {
        self.given.insert(name.copy(alloc)?, state)?;
        Ok(())
    }
}

/// Whether a macro is defined.
pub fn is_defined(state: MacroState) -> bool
    ensures { result ≡ run.is_defined state }
{
    match state {
        MacroState::Undefined => false,
        MacroState::DefinedFalse | MacroState::DefinedTrue => true,
    }
}

/// Whether a macro is defined and true.
pub fn is_true(state: MacroState) -> bool
    ensures { result ≡ run.is_true state }
{
    match state {
        MacroState::Undefined | MacroState::DefinedFalse => false,
        MacroState::DefinedTrue => true,
    }
}
