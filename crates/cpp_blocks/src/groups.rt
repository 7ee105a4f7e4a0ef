ghost use Rattle.std.specs.Prelude.{◌≡◌, OnOk, slice_get};
ghost use Rattle.std.specs.Option.{option_copied};
ghost use Rattle.cpp_blocks.specs.Steps as spec;
ghost use Rattle.cpp_blocks.specs.Facts.{at_first};

use cpp_directives::What;
use sqlite_items::Items;
use std::alloc::{AllocError, Global};
use std::marker::Model;

/// An open chain: the block round it, the groups before its current one, and that.
#[derive(Drop)]
pub struct OpenGroups {
    pub parent: u32,
    pub earlier: Items<u32>,
    pub current: u32,
}

/// Where a directive stands: the number of the next block and the open chains.
#[derive(Drop)]
pub struct Groups {
    next: u32,
    chains: Vec<OpenGroups>,
}

impl Model for Groups {
    ghost use Rattle.std.specs.Prelude.{reverse};
    ghost use Rattle.cpp_blocks.specs.Steps.{Standing};

    ghost Value = { Standing };

    ghost view = { λ g. record { next = g.next; chains = reverse g.chains.items } };
}

impl Groups {
    /// Where the first directive stands.
    pub fn new(alloc: Global) -> Groups
        ensures { result ≡ at_first }
    {
        Groups {
            next: 1,
            chains: Vec::new(alloc),
        }
    }

    /// The number of the next block.
    pub fn next(&self) -> u32
        ensures { result ≡ self.now.next }
    {
        self.next
    }

    /// The innermost open block.
    pub fn current(&self) -> u32
        ensures { result ≡ spec.current self.now.chains }
    {
        match self.chains.last() {
            Some(chain) => chain.current,
            None => 0,
        }
    }

    /// The innermost open chain.
    pub fn innermost(&self) -> Option<&OpenGroups>
        ensures { option_copied result ≡ slice_get self.now.chains 0 }
    {
        self.chains.last()
    }

    /// Passes a directive. The only error is want of memory.
    pub fn pass(&mut self, alloc: Global, what: &What) -> Result<(), AllocError>
        ensures { OnOk result (self.new ≡ spec.after self.old what.now) }
    {
        match what {
            What::If(_) => self.open(alloc),
            What::Elif(_) => self.turn(),
            What::Else => self.turn(),
            What::Endif => {
                self.close();
                Ok(())
            }
            What::Define { .. } => Ok(()),
            What::Undef { .. } => Ok(()),
        }
    }

    /// A chain begins with its first group.
    fn open(&mut self, alloc: Global) -> Result<(), AllocError>
        ensures { OnOk result (self.new ≡ spec.opened self.old) }
    {
        let next = self.next.checked_add(1).ok_or(AllocError)?;
        let parent = self.current();
        self.chains.push(OpenGroups {
            parent,
            earlier: Items::new(alloc),
            current: self.next,
        })?;
        self.next = next;
        Ok(())
    }

    /// The next group of the innermost chain begins.
    fn turn(&mut self) -> Result<(), AllocError>
        ensures { OnOk result (self.new ≡ spec.turned self.old self.old.chains) }
    {
        let next = self.next.checked_add(1).ok_or(AllocError)?;
        match self.chains.pop() {
            Some(mut chain) => {
                chain.earlier.push(chain.current)?;
                chain.current = self.next;
                self.chains.push(chain)?;
                self.next = next;
                Ok(())
            }
            None => Ok(()),
        }
    }

    /// The innermost chain ends.
    fn close(&mut self)
        ensures { self.new ≡ spec.closed self.old }
    {
        self.chains.pop();
    }
}
