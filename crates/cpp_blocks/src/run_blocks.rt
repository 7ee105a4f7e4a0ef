ghost use Rattle.std.specs.Prelude.{◌≡◌, ◌&&◌, ◌||◌, not, IfOk, OnOk};
ghost use Rattle.cpp_blocks.specs.RunStage as spec;

use std::alloc::{AllocError, Global};
use std::marker::Model;

/// An open chain: whether the block round it is on, and whether a group of it was on.
#[derive(Clone, Copy)]
pub struct RunChain {
    around: bool,
    taken: bool,
}

/// Which blocks are on so far: the innermost open one, those of the open chains, and each one in order.
#[derive(Drop)]
pub struct RunBlocks {
    on: bool,
    chains: Vec<RunChain>,
    blocks: Vec<bool>,
}

impl Model for RunBlocks {
    ghost use Rattle.std.specs.Prelude.{reverse};
    ghost use Rattle.cpp_blocks.specs.RunStage.{Stage};

    ghost Value = { Stage };

    ghost view = { λ b. record { on = b.on; chains = reverse b.chains.items; blocks = b.blocks.items } };
}

/// Whether a group is on, where its condition holds or not.
fn is_group_on(around: bool, taken: bool, cond: bool) -> bool
    ensures { result ≡ (around && (not taken && cond)) }
{
    around && !taken && cond
}

/// Whether a group of the chain was on, this one with it.
fn is_taken(around: bool, taken: bool, cond: bool) -> bool
    ensures { result ≡ (taken || (around && cond)) }
{
    taken || around && cond
}

impl RunBlocks {
    /// The file is on or off.
    pub fn new(alloc: Global, built: bool) -> Result<RunBlocks, AllocError>
        ensures { IfOk result (λ b. b ≡ spec.begun built) }
    {
        Ok(RunBlocks {
            on: built,
            chains: Vec::new(alloc),
            blocks: vec![in alloc; built]?,
        })
    }

    /// Whether the innermost open block is on.
    pub fn is_on(&self) -> bool
        ensures { result ≡ self.now.on }
    {
        self.on
    }

    /// Opens a chain, whose first group's condition holds or not.
    pub fn open(&mut self, cond: bool) -> Result<(), AllocError>
        ensures { OnOk result (self.new ≡ spec.opened cond self.old) }
    {
        let around = self.on;
        let on = is_group_on(around, false, cond);
        self.chains.push(RunChain { around, taken: on })?;
        self.blocks.push(on)?;
        self.on = on;
        Ok(())
    }

    /// Begins the next group of the innermost chain.
    pub fn turn(&mut self, cond: bool) -> Result<(), AllocError>
        ensures { OnOk result (self.new ≡ spec.turned cond self.old self.old.chains) }
    {
        match self.chains.pop() {
            Some(chain) => {
                let (around, taken) = (chain.around, chain.taken);
                let on = is_group_on(around, taken, cond);
                let taken = is_taken(around, taken, cond);
                self.chains.push(RunChain { around, taken })?;
                self.blocks.push(on)?;
                self.on = on;
                Ok(())
            }
            None => Ok(()),
        }
    }

    /// Ends the innermost chain.
    pub fn close(&mut self)
        ensures { self.new ≡ spec.closed self.old self.old.chains }
    {
        if let Some(chain) = self.chains.pop() {
            self.on = chain.around;
        }
    }

    /// For each block so far whether it is on.
    pub fn into_blocks(self) -> Vec<bool>
        ensures { result.items ≡ self.blocks }
    {
        let RunBlocks { blocks, .. } = self;
        blocks
    }
}
