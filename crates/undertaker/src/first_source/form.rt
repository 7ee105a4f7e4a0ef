ghost use Rattle.std.specs.Prelude.{◌≡◌, ◌<◌, ◌≤◌, ◌++◌, length, option_to_list, OnOk, IfErr};
ghost use Rattle.undertaker.specs.FirstSource.Form as spec;
ghost use Rattle.undertaker.specs.FirstSource.Reading.{Reads, Ends, Gives};
ghost use Rattle.undertaker.specs.declared.first_bad.FirstBad.TheVariants as bad;

use super::lines::{FirstLine, first_line};
use crate::first_bad::FirstBad;
use cpp_directives::{Cond, Directive, What};
use std::alloc::Global;
use std::marker::Model;
use ut_text::split_line;

const MOST_DEPTH: usize = 250;

const MOST_BLOCKS: u32 = 65_535;

/// The chains that are open, and the number of blocks so far.
#[derive(Drop)]
struct FirstChains {
    openers: Vec<u32>,
    blocks: u32,
}

impl Model for FirstChains {
    ghost use Rattle.std.specs.Prelude.{◌≤◌, reverse, length};
    ghost use Rattle.undertaker.specs.FirstSource.Form.{Chains};

    ghost Value = { Chains };

    ghost view = { λ c. record { openers = reverse c.openers.items; blocks = c.blocks } };

    ghost invariant = { λ c. c.blocks ≤ 65535 };
}

impl FirstChains {
    /// No chain is open and no block was met.
    fn new(alloc: Global) -> FirstChains
        ensures { result ≡ spec.no_chains }
    {
        FirstChains {
            openers: Vec::new(alloc),
            blocks: 0,
        }
    }

    /// Whether one more chain would be too deep or a block too many.
    fn is_full(&self) -> bool
        ensures { result ≡ spec.is_full self.now }
    {
        self.openers.len() >= MOST_DEPTH || self.blocks >= MOST_BLOCKS
    }

    /// Opens a chain, unless a limit is passed.
    fn open(&mut self, line: u32, cond: Cond) -> Result<Option<Directive>, FirstBad>
        ensures { Reads result self.new (spec.opened line cond self.old) }
    {
        if self.is_full() {
            return Err(FirstBad::NotYet { line });
        }
        self.openers.push(line)?;
        self.blocks += 1;
        Ok(Some(Directive {
            line,
            what: What::If(cond),
        }))
    }

    /// Closes the innermost chain.
    fn close(&mut self, line: u32) -> Result<Option<Directive>, FirstBad>
        ensures { Reads result self.new (spec.closed line self.old.blocks self.old.openers) }
    {
        match self.openers.pop() {
            Some(_) => Ok(Some(Directive {
                line,
                what: What::Endif,
            })),
            None => Err(FirstBad::NotYet { line }),
        }
    }

    /// What a line of the form does to the chains, and its directive.
    fn step(&mut self, line: u32, says: FirstLine) -> Result<Option<Directive>, FirstBad>
        ensures { Reads result self.new (spec.step line says self.old) }
    {
        match says {
            FirstLine::Opens(cond) => self.open(line, cond),
            FirstLine::Closes => self.close(line),
            FirstLine::Plain => Ok(None),
            FirstLine::Other => Err(FirstBad::NotYet { line }),
        }
    }

    /// Reads one line.
    fn read(&mut self, alloc: Global, line: u32, text: &[u8]) -> Result<Option<Directive>, FirstBad>
        ensures { Reads result self.new (spec.step line (spec.first_line text.now) self.old) }
    {
        let says = first_line(alloc, text)?;
        self.step(line, says)
    }

    /// Whether no chain is open.
    fn end(&self) -> Result<(), FirstBad>
        ensures { Ends result self.now.openers }
    {
        match self.openers.last() {
            Some(line) => Err(FirstBad::NotYet { line: *line }),
            None => Ok(()),
        }
    }
}

/// Puts a line's directive, if it has one, after the others.
fn keep(list: &mut Vec<Directive>, directive: Option<Directive>) -> Result<(), FirstBad>
    ensures list { OnOk result (list.new.items ≡ list.old.items ++ option_to_list directive) }
    ensures memory { IfErr result (λ e. e ≡ bad.Oom) }
{
    if let Some(directive) = directive {
        list.push(directive)?;
    }
    Ok(())
}

/// The directives of a source of the first form.
pub fn first_directives(alloc: Global, bytes: &[u8]) -> Result<Vec<Directive>, FirstBad>
    requires { length bytes.now ≤ 16777216 }
    ensures { Gives result (spec.first_directives_of bytes.now) }
{
    let mut chains = FirstChains::new(alloc);
    let mut list = Vec::new(alloc);
    let mut rest = bytes;
    let mut line = 1;
    'lines: while !rest.is_empty() {
        let (text, behind) = split_line(rest);
        let directive = chains.read(alloc, line, text)?;
        keep(&mut list, directive)?;
        rest = behind;
        line += 1;
    }
    chains.end()?;
    Ok(list)
}
