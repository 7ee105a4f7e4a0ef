use crate::{
    Checked, KnownClauses, TextLineBad, check, derivation_text, push_step, read_derivation,
    read_step, resolve,
};
use std::alloc::{AllocError, Global};
use std::test::Fail;
use ut_logic::{Clause, Cnf, Lit};

fn clause(alloc: Global, literals: &[i32]) -> Result<Option<Clause>, AllocError> {
    let mut lits = Vec::new(alloc);
    for literal in literals {
        lits.push(Lit {
            var: u64::from(literal.unsigned_abs()),
            positive: *literal > 0,
        })?;
    }
    Clause::try_new(alloc, lits.as_slice())
}

fn form(alloc: Global, vars: u64, rows: &[&[i32]]) -> Result<Option<Cnf>, AllocError> {
    let mut clauses = Vec::new(alloc);
    for row in rows {
        let Some(clause) = clause(alloc, row)? else {
            return Ok(None);
        };
        clauses.push(clause)?;
    }
    Ok(Cnf::try_new(vars, Vec::new(alloc), clauses))
}

/// Whether the reader names this line of the text, or none where it is 0.
fn names(alloc: Global, text: &[u8], line: u32) -> bool {
    if text.len() > 16_777_216 {
        return false;
    }
    match read_derivation(alloc, text) {
        Ok(_) => line == 0,
        Err(TextLineBad::Line { number }) => line == number,
        Err(TextLineBad::Oom) => false,
    }
}

/// The clauses that ask for a block that needs two symbols, of which none is left.
const WORKED: [&[i32]; 17] = [
    &[1, -2],
    &[3],
    &[3, -4],
    &[-4, 6],
    &[-3, 4, -6],
    &[4, -5],
    &[-5, -8],
    &[-4, 5, 8],
    &[2, -6],
    &[-2, 6],
    &[2, -7],
    &[-2, 7],
    &[1, -8],
    &[-1, 8],
    &[1, -9],
    &[-1, 9],
    &[5],
];

/// What the checker says of the derivation in this text, which is written again as it stands.
fn checked(alloc: Global, text: &[u8]) -> Result<Checked, Fail> {
    if text.len() > 16_777_216 {
        return Err("length".into());
    }
    let cnf = form(alloc, 9, WORKED.as_slice())?.ok_or("form")?;
    let d = read_derivation(alloc, text)?;
    let written = derivation_text(alloc, &cnf, &d)?;
    if written.as_slice() != text {
        return Err("text".into());
    }
    Ok(check(alloc, &cnf, &d)?)
}

/// Whether the step is read, and written again as it stands.
fn is_kept(alloc: Global, step: &[u8]) -> Result<bool, AllocError> {
    let mut text = Vec::new(alloc);
    if let Some((number, line)) = read_step(alloc, step)? {
        push_step(&mut text, number, &line)?;
    }
    Ok(text.as_slice() == step)
}

/// Whether the two clauses have a resolvent on variable 1.
fn have_resolvent(alloc: Global, a: &[i32], b: &[i32]) -> Result<bool, Fail> {
    let a = clause(alloc, a)?.ok_or("order")?;
    let b = clause(alloc, b)?.ok_or("order")?;
    Ok(resolve(alloc, &a, &b, 1)?.is_some())
}

#[test]
fn the_worked_form_is_refuted_by_its_chain(rt: HostRuntime) -> Result<(), Fail> {
    let right = b" step 18: 0 via 7 8 14 1 1 2 9 6 4 4 6 5 17\n";
    assert_eq!(rt; checked(rt.alloc(), right)?, Checked::Accepted);
    Ok(())
}

#[test]
fn a_wrong_pivot_and_no_line_are_bad(rt: HostRuntime) -> Result<(), Fail> {
    let wrong = b" step 18: 0 via 7 8 14 2 1 2 9 6 4 4 6 5 17\n";
    assert_eq!(rt; checked(rt.alloc(), wrong)?, Checked::Bad { line: 1 });
    assert_eq!(rt; checked(rt.alloc(), b"")?, Checked::Bad { line: 0 });
    Ok(())
}

#[test]
fn a_derivation_is_followed_line_by_line(rt: HostRuntime) -> Result<(), Fail> {
    let alloc = rt.alloc();
    let text = b" step 18: -5 0 via 7 8 14 1 1 2 9 6 4 4 6\n step 19: 0 via 18 5 17\n";
    let d = read_derivation(alloc, text)?;
    let cnf = form(alloc, 9, WORKED.as_slice())?.ok_or("form")?;
    let mut known = KnownClauses::new(alloc, cnf);
    let [first, last] = d.lines.as_slice() else {
        return Err("lines".into());
    };
    assert!(rt; !known.take(last)?);
    assert!(rt; known.take(first)?);
    assert!(rt; known.take(last)?);
    Ok(())
}

#[test]
fn a_step_is_read_and_written(rt: HostRuntime) -> Result<(), Fail> {
    assert!(rt; is_kept(rt.alloc(), b" step 18: -1 5 0 via 7 8 14")?);
    assert!(rt; !is_kept(rt.alloc(), b" step 18: -1 5 0 via 7 8 14\n")?);
    Ok(())
}

#[test]
fn a_resolvent_has_no_variable_twice(rt: HostRuntime) -> Result<(), Fail> {
    let alloc = rt.alloc();
    assert!(rt; !have_resolvent(alloc, &[1, 2], &[-1, -2])?);
    assert!(rt; have_resolvent(alloc, &[1, 2], &[-1, 3])?);
    Ok(())
}

#[test]
fn a_text_of_the_grammar_is_read(rt: HostRuntime) -> Result<(), Fail> {
    let alloc = rt.alloc();
    assert!(rt; names(alloc, b"", 0));
    assert!(rt; names(alloc, b" step 4: 0 via 1 2 2 1 3\n", 0));
    assert!(rt; names(alloc, b" step 1: -1 2 0 via 0\n step 2: 0 via 1 7 1\n", 0));
    assert!(rt; names(alloc, b" step 18446744073709551615: 0 via 1\n", 0));
    Ok(())
}

#[test]
fn the_reader_names_the_first_line_outside(rt: HostRuntime) -> Result<(), Fail> {
    let alloc = rt.alloc();
    assert!(rt; names(alloc, b" step 18446744073709551616: 0 via 1\n", 1));
    assert!(rt; names(alloc, b" step 0: 0 via 1\n", 1));
    assert!(rt; names(alloc, b" step 4: 0 via 1", 1));
    assert!(rt; names(alloc, b" step 4: 0 via 1\r\n", 1));
    assert!(rt; names(alloc, b" step 4: 0  via 1\n", 1));
    assert!(rt; names(alloc, b" step 4: via 1\n", 1));
    assert!(rt; names(alloc, b" step 4: 2 1 0 via 1\n", 1));
    assert!(rt; names(alloc, b" step 4: 0 via 1\n step 6: 0 via 1\n", 2));
    Ok(())
}
