ghost use Rattle.std.specs.Prelude.{◌≡◌, ◌∷◌, ◌++◌, [], IfOk, OnOk, IfSome, IfNone, IsTrue};
ghost use Rattle.kbuild_text.specs.Chains as spec;
ghost use Rattle.kbuild_text.specs.Words.{words_of};

use crate::marks::Mark;
use crate::words::push_words;
use kbuild_paths::{Path, Step};
use sqlite_items::Items;
use std::alloc::{AllocError, Global};
use std::marker::Model;
use ut_text::Text;

/// A conditional part that is open: its first line and that line's words, each after a space, and the text of its step.
#[derive(Debug, Drop)]
pub struct Chain {
    line: u32,
    words: Items<u8>,
    text: Text,
}

/// The conditional parts round a line, the outermost first.
#[derive(Debug, Drop)]
pub struct Chains {
    list: Vec<Chain>,
}

impl Model for Chains {
    ghost use Rattle.std.specs.Prelude.{List};
    ghost use Rattle.kbuild_text.specs.declared.chains.Chain.{Chain};

    ghost Value = { List Chain };

    ghost view = { λ c. c.list.items };
}

/// The text without its first byte.
fn without_first(text: &[u8]) -> &[u8]
    ensures { result.now ≡ spec.without_first text.now }
{
    match text {
        [_, rest @ ..] => rest,
        [] => text,
    }
}

impl Chain {
    /// The text of the step after an `else` with these words after it.
    fn turned(&self, alloc: Global, rest: &[Mark]) -> Result<Text, AllocError>
        ensures { IfOk result (λ text. text ≡ spec.turned_text self.now (words_of rest.now)) }
    {
        let mut text = Vec::new(alloc);
        text.extend_from_slice(b"else")?;
        text.extend_from_slice(self.words.as_slice())?;
        push_words(rest, &mut text)?;
        Text::of_bytes(alloc, text.as_slice())
    }
}

impl Chains {
    /// No conditional part.
    pub fn new(alloc: Global) -> Chains
        ensures { result ≡ [] }
    {
        Chains {
            list: Vec::new(alloc),
        }
    }

    /// Opens one more part at this line.
    pub fn open(&mut self, alloc: Global, number: u32, line: &[Mark]) -> Result<(), AllocError>
        ensures { OnOk result (self.new ≡ spec.opened number (words_of line.now) self.old) }
    {
        let mut words = Vec::new(alloc);
        push_words(line, &mut words)?;
        let text = Text::of_bytes(alloc, without_first(words.as_slice()))?;
        self.list.push(Chain {
            line: number,
            words: Items::from_vec(words),
            text,
        })?;
        Ok(())
    }

    /// Turns the innermost part at an `else`. The answer is whether there is one.
    pub fn turn(&mut self, alloc: Global, rest: &[Mark]) -> Result<bool, AllocError>
        ensures { IfOk result (λ is_open. spec.Turns self.old (words_of rest.now) is_open self.new) }
    {
        let Some(mut chain) = self.list.pop() else {
            return Ok(false);
        };
        chain.text = chain.turned(alloc, rest)?;
        self.list.push(chain)?;
        Ok(true)
    }

    /// Ends the innermost part. The answer is whether there is one.
    pub fn close(&mut self) -> bool
        ensures { spec.Closes self.old result self.new }
    {
        self.list.pop().is_some()
    }

    /// The first line of the outermost part.
    pub fn outermost(&self) -> Option<u32>
        ensures { result ≡ spec.outermost self.now }
    {
        self.list.first().map(|chain| chain.line)
    }

    /// The steps of the parts.
    pub fn steps(&self, alloc: Global) -> Result<Path, AllocError>
        ensures { IfOk result (λ steps. steps ≡ spec.steps_of self.now) }
    {
        let mut steps = Path::new(alloc);
        for chain in &self.list {
            steps.push(Step::Free(chain.text.copy(alloc)?))?;
        }
        Ok(steps)
    }
}
