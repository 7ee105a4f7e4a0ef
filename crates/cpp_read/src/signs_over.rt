ghost use Rattle.std.specs.Prelude.{◌≡◌, ℕ, ◌+◌, ◌∷◌, ◌≤◌, nat_le, OnOk, IfOk};
ghost use Rattle.cpp_directives.specs.Limits.{most_signs};
ghost use Rattle.cpp_read.specs.SignsOver as spec;
ghost use Rattle.cpp_read.specs.OverSteps.{Steps};

use crate::depth::{is_close, is_not, is_open};
use crate::token::Token;
use std::alloc::{AllocError, Global};
use std::marker::Model;

const MOST_SIGNS: u64 = 200;

/// The place before a token: the signs of the parentheses that are open, those of each outer place, and the `!`
/// in a row before it.
#[derive(Drop)]
struct Over {
    signs: u32,
    outer: Vec<u32>,
    row: u32,
}

impl Model for Over {
    ghost use Rattle.std.specs.Prelude.{reverse};
    ghost use Rattle.cpp_read.specs.SignsOver as over;

    ghost Value = { over.Over };

    ghost view = { λ o. record { signs = o.signs; outer = reverse o.outer.items; row = o.row } };
}

/// Whether so many signs are allowed over a token.
fn sum_fits(signs: u32, row: u32) -> bool
    ensures { result ≡ nat_le (signs + row) most_signs }
{
    u64::from(signs) + u64::from(row) <= MOST_SIGNS
}

impl Over {
    /// The place before the first token.
    fn new(alloc: Global) -> Over
        ensures { result ≡ spec.outermost }
    {
        Over {
            signs: 0,
            outer: Vec::new(alloc),
            row: 0,
        }
    }

    /// The signs of the place that encloses this one.
    fn outer_signs(&self) -> u32
        ensures { result ≡ (spec.outside self.now.outer).signs }
    {
        match self.outer.last() {
            Some(signs) => *signs,
            None => 0,
        }
    }

    /// Goes outside the innermost parenthesis.
    fn leave(&mut self)
        ensures { self.new ≡ spec.outside self.old.outer }
    {
        self.row = 0;
        self.signs = match self.outer.pop() {
            Some(signs) => signs,
            None => 0,
        };
    }

    /// Goes after a token that closes nothing.
    fn pass(&mut self, token: &Token) -> Result<(), AllocError>
        requires { self.old.signs + self.old.row ≤ 200 }
        ensures { OnOk result (self.new ≡ spec.inner_after self.old token.now) }
    {
        if is_not(token) {
            self.row += 1;
            return Ok(());
        }
        if is_open(token) {
            self.outer.push(self.signs)?;
            self.signs += self.row + 1;
        }
        self.row = 0;
        Ok(())
    }

    /// Whether a token has few enough signs over it; goes after it then.
    fn step(&mut self, token: &Token) -> Result<bool, AllocError>
        ensures { IfOk result (λ fits. Steps self.old token.now self.new fits) }
    {
        if is_close(token) {
            let fits = sum_fits(self.outer_signs(), self.row);
            self.leave();
            return Ok(fits);
        }
        if !sum_fits(self.signs, self.row) {
            return Ok(false);
        }
        self.pass(token)?;
        Ok(true)
    }
}

/// Whether no token has more than 200 signs over it.
pub fn signs_fit(alloc: Global, tokens: &[Token]) -> Result<bool, AllocError>
    ensures { IfOk result (λ fits. fits ≡ spec.signs_fit spec.outermost tokens.now) }
{
    let mut over = Over::new(alloc);
    for token in tokens {
        if !over.step(token)? {
            return Ok(false);
        }
    }
    Ok(true)
}
