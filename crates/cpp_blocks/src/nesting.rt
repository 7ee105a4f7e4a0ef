ghost use Rattle.std.specs.Prelude.{◌≡◌, ◌++◌, ◌∷◌, IfOk, OnOk};
ghost use Rattle.cpp_blocks.specs.Blocks.{innermost};
ghost use Rattle.cpp_blocks.specs.Nested as spec;

use cpp_directives::{Directive, What};
use std::alloc::{AllocError, Global};
use std::marker::Model;

/// The blocks of the directives passed so far: the next block's number, the open blocks from the outermost,
/// for each block its parent and the place of its opening directive, and for each directive the innermost
/// block that is open after it.
#[derive(Drop)]
pub struct Nesting {
    next: u32,
    open: Vec<u32>,
    pub parents: Vec<u32>,
    pub openers: Vec<u32>,
    pub inner: Vec<u32>,
}

impl Model for Nesting {
    ghost use Rattle.std.specs.Prelude.{reverse};
    ghost use Rattle.cpp_blocks.specs.Nested.{Nested};

    ghost Value = { Nested };

    ghost view = { λ n. record { next = n.next; inside = reverse n.open.items; parents = n.parents.items; openers = n.openers.items; inner = n.inner.items } };
}

impl Nesting {
    /// No group is open, and the first block is to come.
    fn new(alloc: Global) -> Nesting
        ensures { result ≡ spec.nothing }
    {
        Nesting {
            next: 1,
            open: Vec::new(alloc),
            parents: Vec::new(alloc),
            openers: Vec::new(alloc),
            inner: Vec::new(alloc),
        }
    }

    /// The innermost open block.
    fn innermost(&self) -> u32
        ensures { result ≡ innermost self.now.inside }
    {
        self.open.last().copied().unwrap_or(0)
    }

    /// The innermost open block ends.
    fn end(&mut self)
        ensures { self.new ≡ spec.ended self.old }
    {
        self.open.pop();
    }

    /// The directive at this place begins a block inside the innermost open one.
    fn begin(&mut self, place: u32) -> Result<(), AllocError>
        ensures { OnOk result (self.new ≡ spec.begun place self.old) }
    {
        let parent = self.innermost();
        let next = self.next.checked_add(1).ok_or(AllocError)?;
        self.parents.push(parent)?;
        self.openers.push(place)?;
        self.open.push(self.next)?;
        self.next = next;
        Ok(())
    }

    /// The directive at this place begins the next group of the innermost chain.
    fn turn(&mut self, place: u32) -> Result<(), AllocError>
        ensures { OnOk result (self.new ≡ spec.begun place (spec.ended self.old)) }
    {
        self.end();
        self.begin(place)
    }

    /// What the directive at this place begins and ends.
    fn step(&mut self, place: u32, what: &What) -> Result<(), AllocError>
        ensures { OnOk result (self.new ≡ spec.stepped place what.now self.old) }
    {
        match what {
            What::If(_) => self.begin(place),
            What::Elif(_) => self.turn(place),
            What::Else => self.turn(place),
            What::Endif => {
                self.end();
                Ok(())
            }
            What::Define { .. } => Ok(()),
            What::Undef { .. } => Ok(()),
        }
    }

    /// Passes the directive at this place.
    fn pass(&mut self, place: u32, what: &What) -> Result<(), AllocError>
        ensures { OnOk result (self.new ≡ spec.passed place what.now self.old) }
    {
        self.step(place, what)?;
        let inner = self.innermost();
        self.inner.push(inner)?;
        Ok(())
    }

    /// The blocks of a source.
    pub fn of(alloc: Global, list: &[Directive]) -> Result<Nesting, AllocError>
        ensures { IfOk result (λ n. n ≡ spec.all_passed 0 list.now spec.nothing) }
    {
        let mut nesting = Nesting::new(alloc);
        for (place, directive) in list.iter().enumerate() {
            let at = u32::try_from(place).map_err(|_| AllocError)?;
            nesting.pass(at, &directive.what)?;
        }
        Ok(nesting)
    }
}
