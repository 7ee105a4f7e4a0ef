ghost use Rattle.std.specs.Prelude.{◌≡◌, [], List};
ghost use Rattle.cpp_directives.specs.Chains as chains;
ghost use Rattle.cpp_directives.specs.Chains.{Earlier};
ghost use Rattle.cpp_directives.specs.Stack as stack;
ghost use Rattle.cpp_directives.specs.Stack.{IsStackOf, Steps, StackEnds, Passes, Ends};

use crate::bad::CppBad;
use crate::part::Part;
use std::alloc::Global;
use std::marker::Model;

const MOST_DEPTH: usize = 250;

const MOST_BLOCKS: u32 = 65_535;

const MOST_GROUPS: u32 = 1024;

/// An open chain: the line of its opener, whether its `#else` came, and its groups so far.
#[derive(Clone, Copy)]
pub struct Chain {
    pub line: u32,
    pub has_else: bool,
    pub groups: u32,
}

/// The open chains of the directives passed so far, and the number of their blocks.
#[derive(Drop)]
pub struct OpenChains {
    list: Vec<Chain>,
    count: u32,
}

impl Model for OpenChains {
    ghost use Rattle.std.specs.Prelude.{◌≤◌, reverse};
    ghost use Rattle.cpp_directives.specs.Limits.{most_blocks};
    ghost use Rattle.cpp_directives.specs.Stack.{ChainState};

    ghost Value = { ChainState };

    ghost view = { λ o. record { chains = reverse o.list.items; count = o.count } };

    ghost invariant = { λ o. o.count ≤ most_blocks };
}

impl OpenChains {
    /// No directive was passed.
    pub fn new(alloc: Global) -> OpenChains
        ensures stack { result ≡ stack.no_chains }
        ensures none { IsStackOf result [] }
    {
        OpenChains {
            list: Vec::new(alloc),
            count: 0,
        }
    }

    /// Passes a directive of this part on this line, if it may stand there.
    ///
    /// `Depth` comes before `TooMany`, and `Unbalanced` before `ElseTwice` before `TooMany`.
    pub fn pass(&mut self, part: Part, line: u32) -> Result<(), CppBad>
        ensures { (before : List Earlier) → IsStackOf self.old before → Passes result self.new (chains.passing part line before) }
    {
        self.step(part, line)
    }

    /// Whether no chain is open; else the innermost one is named by its opener's line.
    pub fn end(&self) -> Result<(), CppBad>
        ensures { (before : List Earlier) → IsStackOf self.now before → Ends result before }
    {
        self.innermost()
    }

    /// Does to the chains what a directive does.
    fn step(&mut self, part: Part, line: u32) -> Result<(), CppBad>
        ensures { Steps result self.new (stack.chained part line self.old) }
    {
        match part {
            Part::If => self.open(line),
            Part::Elif => self.turn(false, line),
            Part::Else => self.turn(true, line),
            Part::Endif => self.close(line),
            Part::Other => Ok(()),
        }
    }

    /// Opens a chain with its first group.
    fn open(&mut self, line: u32) -> Result<(), CppBad>
        ensures { Steps result self.new (stack.opened line self.old) }
    {
        if self.list.len() >= MOST_DEPTH {
            return Err(CppBad::Depth { line });
        }
        if self.count >= MOST_BLOCKS {
            return Err(CppBad::TooMany { line });
        }
        self.list.push(Chain {
            line,
            has_else: false,
            groups: 1,
        })?;
        self.count += 1;
        Ok(())
    }

    /// Begins one more group of the innermost chain.
    fn turn(&mut self, is_else: bool, line: u32) -> Result<(), CppBad>
        ensures { Steps result self.new (stack.turned is_else line self.old.count self.old.chains) }
    {
        let Some(chain) = self.list.pop() else {
            return Err(CppBad::Unbalanced { line });
        };
        if chain.has_else {
            return Err(CppBad::ElseTwice { line });
        }
        if is_full(self.count, &chain) {
            return Err(CppBad::TooMany { line });
        }
        self.list.push(Chain {
            line: chain.line,
            has_else: is_else,
            groups: chain.groups + 1,
        })?;
        self.count += 1;
        Ok(())
    }

    /// Closes the innermost chain.
    fn close(&mut self, line: u32) -> Result<(), CppBad>
        ensures { Steps result self.new (stack.closed line self.old.count self.old.chains) }
    {
        match self.list.pop() {
            Some(_) => Ok(()),
            None => Err(CppBad::Unbalanced { line }),
        }
    }

    /// The innermost open chain, as a refusal.
    fn innermost(&self) -> Result<(), CppBad>
        ensures { StackEnds result self.now.chains }
    {
        match self.list.last() {
            Some(chain) => Err(CppBad::Unclosed { line: chain.line }),
            None => Ok(()),
        }
    }
}

/// Whether one more group would be a block or a group too many.
fn is_full(count: u32, chain: &Chain) -> bool
    ensures { result ≡ stack.is_full count chain.now }
{
    count >= MOST_BLOCKS || chain.groups >= MOST_GROUPS
}
