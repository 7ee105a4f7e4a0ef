use crate::{Answer, Trail, solve};
use log_check::{Checked, check};
use std::alloc::{AllocError, Global};
use std::test::Fail;
use ut_logic::{Clause, Cnf, Item, Lit};

/// The clause form over so many items, whose clauses each end with 0.
fn form(alloc: Global, vars: u32, literals: &[i32]) -> Result<Option<Cnf>, AllocError> {
    let mut items = Vec::new(alloc);
    for k in 0..vars {
        items.push(Item::SymY(k))?;
    }
    let mut clauses = Vec::new(alloc);
    let mut lits = Vec::new(alloc);
    for literal in literals {
        if *literal == 0 {
            let Some(clause) = Clause::try_new(alloc, lits.as_slice())? else {
                return Ok(None);
            };
            clauses.push(clause)?;
            lits.clear();
        } else {
            lits.push(Lit {
                var: u64::from(literal.unsigned_abs()),
                positive: *literal > 0,
            })?;
        }
    }
    Ok(Cnf::try_new(u64::from(vars), items, clauses))
}

/// Whether the search finds just these variables true, or refutes where there are none to find.
fn comes_to(
    alloc: Global,
    vars: u32,
    literals: &[i32],
    model: Option<&[u32]>,
) -> Result<bool, AllocError> {
    let Some(cnf) = form(alloc, vars, literals)? else {
        return Ok(false);
    };
    let mut trail = Trail::new(alloc, &cnf)?;
    match (solve(alloc, &cnf, &mut trail, 128)?, model) {
        (Answer::Found(found), Some(model)) => {
            for k in 0..vars {
                if found.has(Item::SymY(k)) != model.contains(&k) {
                    return Ok(false);
                }
            }
            Ok(true)
        }
        (Answer::Refuted(d), None) => Ok(check(alloc, &cnf, &d)? == Checked::Accepted),
        _ => Ok(false),
    }
}

#[test]
fn a_step_short_is_spent(rt: HostRuntime) -> Result<(), Fail> {
    let alloc = rt.alloc();
    let cnf = form(alloc, 2, &[1, 2, 0])?.ok_or("form")?;
    let mut trail = Trail::new(alloc, &cnf)?;
    let answer = solve(alloc, &cnf, &mut trail, 0)?;
    assert!(rt; matches!(answer, Answer::Spent { steps: 0 }));
    Ok(())
}

#[test]
fn a_backjump_leaves_the_learned_literal(rt: HostRuntime) -> Result<(), Fail> {
    let alloc = rt.alloc();
    let cnf = form(alloc, 2, &[1, 2, 0, 1, -2, 0])?.ok_or("form")?;
    let mut trail = Trail::new(alloc, &cnf)?;
    let answer = solve(alloc, &cnf, &mut trail, 3)?;
    assert!(rt; matches!(answer, Answer::Spent { steps: 3 }));
    assert_eq!(rt; trail.set, 1);
    assert_eq!(rt; trail.lines.len(), 1);
    let mark = trail.marks.first().ok_or("mark")?;
    assert_eq!(rt; mark.lit.var, 1);
    assert!(rt; mark.lit.positive && !mark.decided);
    Ok(())
}

#[test]
fn four_steps_find_the_first_alone(rt: HostRuntime) -> Result<(), Fail> {
    let alloc = rt.alloc();
    let cnf = form(alloc, 2, &[1, 2, 0, 1, -2, 0])?.ok_or("form")?;
    let mut trail = Trail::new(alloc, &cnf)?;
    let Answer::Found(found) = solve(alloc, &cnf, &mut trail, 4)? else {
        return Err("found".into());
    };
    assert!(rt; found.has(Item::SymY(0)) && !found.has(Item::SymY(1)));
    assert_eq!(rt; trail.steps(), 4);
    Ok(())
}

/// Clauses, each ending with 0, over so many variables.
const FORMS: [(u32, &[i32]); 20] = [
    (2, &[1, 2, 0]),
    (2, &[1, 2, 0, 1, -2, 0]),
    (3, &[]),
    (1, &[1, 0, -1, 0]),
    (2, &[1, 2, 0, -1, 2, 0, 1, -2, 0, -1, -2, 0]),
    (3, &[-1, 0, 1, 2, 0, -2, 3, 0]),
    (3, &[1, 2, 3, 0]),
    (3, &[-3, 0, 1, 2, 3, 0]),
    (3, &[-2, 0, -3, 0, 1, 2, 3, 0]),
    (3, &[1, -2, 0, 2, -3, 0, -1, 3, 0, 1, 2, 3, 0]),
    (
        3,
        &[1, -2, 0, 2, -3, 0, -1, 3, 0, 1, 2, 3, 0, -1, -2, -3, 0],
    ),
    (4, &[-1, 2, 0, -2, 3, 0, -3, 4, 0, 4, 0]),
    (4, &[-1, 2, 0, -2, 3, 0, -3, 4, 0, -4, 0]),
    (4, &[1, 2, 0, 3, 4, 0, -2, -4, 0]),
    (3, &[1, 2, 0, -1, -2, 0, 3, 0]),
    (
        6,
        &[
            1, 2, 0, 3, 4, 0, 5, 6, 0, -1, -3, 0, -1, -5, 0, -3, -5, 0, -2, -4, 0, -2, -6, 0, -4,
            -6, 0,
        ],
    ),
    (4, &[1, 2, 0, 3, 4, 0, -1, -3, 0, -2, -4, 0]),
    (3, &[1, 2, 0, -1, -2, 0, 2, 3, 0, -2, -3, 0]),
    (
        3,
        &[1, 2, 0, -1, -2, 0, 2, 3, 0, -2, -3, 0, 1, 3, 0, -1, -3, 0],
    ),
    (6, &[5, 6, 0, -6, 0, 1, -5, 0, 2, 3, 0]),
];

/// The variables that their least models make true, counted from 0; nothing where there is no model.
const MODELS: [Option<&[u32]>; 20] = [
    Some(&[1]),
    Some(&[0]),
    Some(&[]),
    None,
    None,
    Some(&[1, 2]),
    Some(&[2]),
    Some(&[1]),
    Some(&[0]),
    Some(&[0, 1, 2]),
    None,
    Some(&[3]),
    Some(&[]),
    Some(&[1, 2]),
    Some(&[1, 2]),
    None,
    Some(&[1, 2]),
    Some(&[1]),
    None,
    Some(&[0, 2, 4]),
];

#[test]
fn forms_have_their_least_models(rt: HostRuntime) -> Result<(), Fail> {
    let alloc = rt.alloc();
    for ((vars, literals), model) in FORMS.iter().zip(MODELS.iter()) {
        assert!(rt; comes_to(alloc, *vars, literals, *model)?, "{literals:?}");
    }
    Ok(())
}

#[test]
fn the_first_decision_visits_one_clause(rt: HostRuntime) -> Result<(), Fail> {
    let alloc = rt.alloc();
    let mut literals = Vec::new(alloc);
    for k in 3..1003 {
        literals.push(k)?;
        literals.push(k + 1)?;
        literals.push(0)?;
    }
    literals.push(1)?;
    literals.push(2)?;
    literals.push(0)?;
    let cnf = form(alloc, 1003, literals.as_slice())?.ok_or("form")?;
    let mut trail = Trail::new(alloc, &cnf)?;
    assert_eq!(rt; trail.watched.visited, 0);
    let answer = solve(alloc, &cnf, &mut trail, 1)?;
    assert!(rt; matches!(answer, Answer::Spent { steps: 1 }));
    assert_eq!(rt; trail.watched.visited, 1);
    Ok(())
}

/// The next number of a fixed sequence.
fn draw(state: &mut u64) -> u64 {
    *state = state
        .wrapping_mul(6_364_136_223_846_793_005)
        .wrapping_add(1_442_695_040_888_963_407);
    *state >> 33
}

/// A number behind `low`, at most `high`.
fn pick(state: &mut u64, low: u32, high: u32) -> u32 {
    let span = u64::from(high.saturating_sub(low));
    let offset = draw(state).checked_rem(span).unwrap_or(0);
    low.saturating_add(1)
        .saturating_add(u32::try_from(offset).unwrap_or(0))
}

/// The variable's literal, positive or not.
fn signed(var: u32, positive: bool) -> i32 {
    let number = i32::try_from(var).unwrap_or(1);
    if positive {
        return number;
    }
    number.wrapping_neg()
}

/// Adds a clause of two or three of so many variables, which ends with 0.
fn draw_clause(literals: &mut Vec<i32>, vars: u32, state: &mut u64) -> Result<(), AllocError> {
    let first = pick(state, 0, vars.saturating_sub(2));
    let second = pick(state, first, vars.saturating_sub(1));
    let third = pick(state, second, vars);
    let signs = draw(state);
    literals.push(signed(first, signs % 2 == 0))?;
    literals.push(signed(second, signs / 2 % 2 == 0))?;
    if signs / 4 % 4 > 0 {
        literals.push(signed(third, signs / 16 % 2 == 0))?;
    }
    literals.push(0)?;
    Ok(())
}

/// Clauses of two or three of so many variables, each ending with 0.
fn drawn_form(
    alloc: Global,
    vars: u32,
    count: u32,
    state: &mut u64,
) -> Result<Vec<i32>, AllocError> {
    let mut literals = Vec::new(alloc);
    for turn in 0..count {
        draw_clause(&mut literals, vars, state)?;
    }
    Ok(literals)
}

#[test]
fn derivations_of_drawn_forms_are_accepted(rt: HostRuntime) -> Result<(), Fail> {
    let alloc = rt.alloc();
    let mut state = 20_011u64;
    let mut refuted = 0u32;
    for turn in 0..400u32 {
        let vars = 5 + turn % 16;
        let literals = drawn_form(alloc, vars, vars * 6, &mut state)?;
        let cnf = form(alloc, vars, literals.as_slice())?.ok_or("form")?;
        let mut trail = Trail::new(alloc, &cnf)?;
        if let Answer::Refuted(d) = solve(alloc, &cnf, &mut trail, 4_000_000)? {
            assert_eq!(rt; check(alloc, &cnf, &d)?, Checked::Accepted);
            refuted = refuted.saturating_add(1);
        }
    }
    assert!(rt; refuted >= 300, "{refuted}");
    Ok(())
}
