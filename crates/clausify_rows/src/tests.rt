use crate::facts::facts;
use crate::forms::{begun, slice, whole, wished};
use crate::words::formulas;
use model_slice::IndexedFacts;
use std::alloc::Global;
use std::test::Fail;
use test_rows::check_lines;

/// The clauses of the form in two parts, for what is held and a wish.
fn in_parts(alloc: Global, held: &str, wish: &str) -> Result<String, Fail> {
    let facts = facts(alloc)?;
    let store = IndexedFacts::of(alloc, &facts)?;
    let (held, wish) = (formulas(alloc, held)?, formulas(alloc, wish)?);
    match begun(alloc, &store, &held, &slice(alloc)?)? {
        Some(form) => Ok(wished(alloc, &form, &wish)?),
        None => Ok(String::from_str(alloc, "not listed")?),
    }
}

/// The clauses of the form in one.
fn in_one(alloc: Global, held: &str, wish: &str) -> Result<String, Fail> {
    let facts = facts(alloc)?;
    let store = IndexedFacts::of(alloc, &facts)?;
    let (held, wish) = (formulas(alloc, held)?, formulas(alloc, wish)?);
    Ok(whole(alloc, &store, &held, &slice(alloc)?, &wish)?)
}

const ROWS: &str = "
/ => 1 -2 0;
/B => 1 -2 0;2 0;
/!B => 1 -2 0;-2 0;
/A|B => 1 -2 0;1 2 0;
/C => not listed
A|B/ => 1 2 0;1 -2 0;
A|B/B => 1 2 0;1 -2 0;2 0;
A|B/!B => 1 2 0;1 -2 0;-2 0;
A/C => not listed
C/A => not listed
";

#[test]
fn a_wish_is_added_to_the_form_of_the_facts(rt: HostRuntime) -> Result<(), Fail> {
    let answer = |alloc: Global, row: &str| {
        let (held, wish) = row.split_once('/').ok_or("a row")?;
        in_parts(alloc, held, wish)
    };
    check_lines(rt.alloc(), ROWS, answer)
}

#[test]
fn the_form_in_one_is_the_same(rt: HostRuntime) -> Result<(), Fail> {
    let answer = |alloc: Global, row: &str| {
        let (held, wish) = row.split_once('/').ok_or("a row")?;
        in_one(alloc, held, wish)
    };
    check_lines(rt.alloc(), ROWS, answer)
}

#[test]
fn a_second_wish_has_no_clause_of_the_first(rt: HostRuntime) -> Result<(), Fail> {
    let alloc = rt.alloc();
    let facts = facts(alloc)?;
    let store = IndexedFacts::of(alloc, &facts)?;
    let form = begun(alloc, &store, &[], &slice(alloc)?)?.ok_or("a form")?;
    let first = wished(alloc, &form, &formulas(alloc, "B")?)?;
    let second = wished(alloc, &form, &formulas(alloc, "A|B")?)?;
    assert_eq!(rt; first.as_str(), "1 -2 0;2 0;");
    assert_eq!(rt; second.as_str(), "1 -2 0;1 2 0;");
    Ok(())
}
