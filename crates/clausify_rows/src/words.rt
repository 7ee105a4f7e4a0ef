//! Formulas by a word, and clauses as a text.

use crate::facts::{A, B, either, not};
use std::alloc::{AllocError, Global};
use std::fmt::Write;
use std::test::Fail;
use ut_logic::{Cnf, Formula, Item};

/// The formula that a word stands for; C is a symbol that no fact lists.
fn formula(alloc: Global, word: &str) -> Result<Formula, Fail> {
    match word {
        "A" => Ok(Formula::Is(A)),
        "B" => Ok(Formula::Is(B)),
        "C" => Ok(Formula::Is(Item::SymY(2))),
        "!B" => Ok(not(alloc, Formula::Is(B))?),
        "A|B" => Ok(either(alloc, Formula::Is(A), Formula::Is(B))?),
        _ => Err(Fail::from("a formula")),
    }
}

/// The formulas of a word: none where there is no word.
pub fn formulas(alloc: Global, word: &str) -> Result<Vec<Formula>, Fail> {
    let mut list = Vec::new(alloc);
    if !word.is_empty() {
        list.push(formula(alloc, word)?)?;
    }
    Ok(list)
}

/// The clauses as in DIMACS, with a semicolon for a line's end.
pub fn text(alloc: Global, cnf: &Cnf) -> Result<String, AllocError> {
    let mut text = String::new(alloc);
    for clause in cnf.clauses.as_slice() {
        for lit in clause.lits() {
            let sign = if lit.positive { "" } else { "-" };
            write!(text, "{sign}{} ", lit.var)?;
        }
        text.push_str("0;")?;
    }
    Ok(text)
}
