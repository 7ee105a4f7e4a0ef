use crate::{are_listed, are_listed_in, clauses, clauses_in};
use model_slice::{IndexedFacts, Slice, SymbolRoom};
use sqlite_items::{Boxed, Items};
use std::alloc::{AllocError, Global};
use ut_logic::{Cnf, Definition, Fact, Facts, Formula, Item, Node, Sequence};

const A: Item = Item::SymY(0);

const B: Item = Item::SymY(1);

const FILE: Item = Item::Block { file: 0, block: 0 };

const B1: Item = Item::Block { file: 0, block: 1 };

const B2: Item = Item::Block { file: 0, block: 2 };

fn all_of(list: Vec<Formula>) -> Formula {
    Formula::AllOf(Items::from_vec(list))
}

fn any_of(list: Vec<Formula>) -> Formula {
    Formula::AnyOf(Items::from_vec(list))
}

fn not(alloc: Global, f: Formula) -> Result<Formula, AllocError> {
    Ok(Formula::Neg(Boxed::new(alloc, f)?))
}

fn fact(
    alloc: Global,
    node: Node,
    holds: Vec<Formula>,
    defines: Vec<Definition>,
    items: &[Item],
) -> Result<Fact, AllocError> {
    Ok(Fact {
        node,
        holds: Sequence::from_vec(holds),
        defines: Sequence::from_vec(defines),
        names: Sequence::new(alloc),
        items: Sequence::from_vec(Vec::from_slice(alloc, items)?),
    })
}

fn block(alloc: Global, block: u32, formula: Formula) -> Result<Fact, AllocError> {
    let item = Item::Block { file: 0, block };
    let defines = vec![in alloc; Definition { item, formula }]?;
    fact(
        alloc,
        Node::Block { file: 0, block },
        Vec::new(alloc),
        defines,
        &[item],
    )
}

// The start of the macro of a bool symbol: it is defined, and true, where the symbol is y.
fn start(alloc: Global, name: u32, symbol: Item) -> Result<Fact, AllocError> {
    let (file, turn) = (0, 0);
    let d = Item::StateD { file, name, turn };
    let t = Item::StateT { file, name, turn };
    let defines = vec![in alloc;
        Definition {
            item: d,
            formula: Formula::Is(symbol)
        },
        Definition {
            item: t,
            formula: Formula::Is(symbol)
        },
    ]?;
    fact(
        alloc,
        Node::State { file, name, turn },
        Vec::new(alloc),
        defines,
        &[d, t],
    )
}

fn either(alloc: Global, a: Formula, b: Formula) -> Result<Formula, AllocError> {
    Ok(any_of(vec![in alloc; a, b]?))
}

fn both(alloc: Global, a: Formula, b: Formula) -> Result<Formula, AllocError> {
    Ok(all_of(vec![in alloc; a, b]?))
}

fn defined(name: u32) -> Formula {
    Formula::Is(Item::StateD {
        file: 0,
        name,
        turn: 0,
    })
}

fn add_symbols(alloc: Global, list: &mut Vec<Fact>) -> Result<(), AllocError> {
    let depends = either(alloc, not(alloc, Formula::Is(B))?, Formula::Is(A))?;
    let holds = vec![in alloc; depends]?;
    list.push(fact(alloc, Node::Sym(1), holds, Vec::new(alloc), &[B])?)?;
    list.push(fact(alloc, Node::Sym(0), Vec::new(alloc), Vec::new(alloc), &[A])?)?;
    Ok(())
}

fn add_blocks(alloc: Global, list: &mut Vec<Fact>) -> Result<(), AllocError> {
    let nested = both(alloc, Formula::Is(B1), not(alloc, defined(1))?)?;
    list.push(block(alloc, 2, nested)?)?;
    let inside = both(alloc, Formula::Is(FILE), defined(0))?;
    list.push(block(alloc, 1, inside)?)?;
    list.push(block(alloc, 0, Formula::Yes)?)?;
    Ok(())
}

// B depends on A. In the file, `#ifdef CONFIG_B` opens block 1 and `#ifndef CONFIG_A` block 2 inside it.
fn facts(alloc: Global) -> Result<Facts, AllocError> {
    let mut list = Vec::new(alloc);
    list.push(start(alloc, 1, A)?)?;
    list.push(start(alloc, 0, B)?)?;
    add_blocks(alloc, &mut list)?;
    add_symbols(alloc, &mut list)?;
    Ok(Facts {
        list: Sequence::from_vec(list),
    })
}

fn slice(alloc: Global, nodes: &[Node]) -> Result<Slice, AllocError> {
    Ok(Slice {
        nodes: Sequence::from_vec(Vec::from_slice(alloc, nodes)?),
    })
}

// A line for each clause, as in a derivation: a negative literal has a minus sign.
fn text(alloc: Global, cnf: &Cnf) -> Result<String, AllocError> {
    let mut text = String::new(alloc);
    for clause in cnf.clauses.as_slice() {
        for lit in clause.lits() {
            text.push_str(if lit.positive { " " } else { " -" })?;
            text.push_str(format!(in alloc; "{}", lit.var)?.as_str())?;
        }
        text.push_str(";")?;
    }
    Ok(text)
}

// The text of the clause form, where each item is listed.
fn answer(
    alloc: Global,
    facts: &Facts,
    slice: &Slice,
    wish: &[Formula],
) -> Result<String, AllocError> {
    if !are_listed(alloc, facts, slice, wish)? {
        return String::from_str(alloc, "an item is not listed");
    }
    let cnf = clauses(alloc, facts, slice, wish)?;
    let whole = text(alloc, &cnf)?;
    let other = with_room(alloc, facts, &[], slice, wish)?;
    if other.as_str() != whole.as_str() {
        return String::from_str(alloc, "another form with lent room");
    }
    Ok(whole)
}

// The form with lent room that ends before some symbols, where each item is listed.
fn whole_form(
    alloc: Global,
    store: &IndexedFacts<'_>,
    held: &[Formula],
    slice: &Slice,
    wish: &[Formula],
) -> Result<Option<Cnf>, AllocError> {
    let mut room = SymbolRoom::new(alloc, 1)?;
    if !are_listed_in(alloc, store, held, slice, wish)? {
        return Ok(None);
    }
    let cnf = clauses_in(alloc, store, &mut room, held, slice, wish)?;
    Ok(Some(cnf))
}

// The text of the form with lent room.
fn with_room(
    alloc: Global,
    facts: &Facts,
    held: &[Formula],
    slice: &Slice,
    wish: &[Formula],
) -> Result<String, AllocError> {
    let store = IndexedFacts::of(alloc, facts)?;
    let Some(cnf) = whole_form(alloc, &store, held, slice, wish)? else {
        return String::from_str(alloc, "an item is not listed");
    };
    text(alloc, &cnf)
}

fn ask(alloc: Global, nodes: &[Node], wish: Formula) -> Result<String, AllocError> {
    let facts = facts(alloc)?;
    let slice = slice(alloc, nodes)?;
    let wish = vec![in alloc; wish]?;
    answer(alloc, &facts, &slice, &wish)
}

#[test]
fn the_worked_form_comes_out_literal_by_literal(rt: HostRuntime) -> Result<(), AllocError> {
    let nodes = [
        Node::Sym(0),
        Node::Sym(1),
        Node::Block { file: 0, block: 0 },
        Node::Block { file: 0, block: 1 },
        Node::Block { file: 0, block: 2 },
        Node::State {
            file: 0,
            name: 0,
            turn: 0,
        },
        Node::State {
            file: 0,
            name: 1,
            turn: 0,
        },
    ];
    let got = ask(rt.alloc(), &nodes, Formula::Is(B2))?;
    let want =
        " 1 -2; 3; 3 -4; -4 6; -3 4 -6; 4 -5; -5 -8; -4 5 8; 2 -6; -2 6; 2 -7; -2 7; 1 -8; -1 8; 1 -9; -1 9; 5;";
    assert_eq!(rt; got.as_str(), want);
    Ok(())
}

fn wish(alloc: Global, number: u8) -> Result<Formula, AllocError> {
    let a = Formula::Is(A);
    match number {
        0 => Ok(Formula::Yes),
        1 => Ok(Formula::No),
        2 => Ok(any_of(Vec::new(alloc))),
        3 => either(alloc, a, Formula::Is(A)),
        4 => either(alloc, a, not(alloc, Formula::Is(A))?),
        5 => both(alloc, Formula::Is(Item::Outer(7)), not(alloc, a)?),
        6 => not(alloc, either(alloc, a, Formula::Is(Item::Outer(0)))?),
        _ => Ok(Formula::Is(B)),
    }
}

#[test]
fn a_wish_has_the_clauses_of_its_form(rt: HostRuntime) -> Result<(), AllocError> {
    for (number, want) in [
        (0, ""),
        (1, ";"),
        (2, ";"),
        (3, " 1;"),
        (4, ""),
        (5, " 2; -1;"),
        (6, " -1 3; -2 3; 1 2 -3; -3;"),
        (7, "an item is not listed"),
    ] {
        let got = ask(rt.alloc(), &[Node::Sym(0)], wish(rt.alloc(), number)?)?;
        assert_eq!(rt; got.as_str(), want, "wish {number}");
    }
    Ok(())
}

// A or B is held, B depends on A, and a wish comes last.
#[test]
fn held_formulas_come_first_and_each_wish_comes_last(rt: HostRuntime) -> Result<(), AllocError> {
    let alloc = rt.alloc();
    let facts = facts(alloc)?;
    let slice = slice(alloc, &[Node::Sym(0), Node::Sym(1)])?;
    let held = vec![in alloc; either(alloc, Formula::Is(B), Formula::Is(A))?]?;
    let first = vec![in alloc; Formula::Is(B)]?;
    let second = vec![in alloc; not(alloc, Formula::Is(B))?]?;
    let got = with_room(alloc, &facts, &held, &slice, &first)?;
    assert_eq!(rt; got.as_str(), " 1 2; 1 -2; 2;");
    let got = with_room(alloc, &facts, &held, &slice, &second)?;
    assert_eq!(rt; got.as_str(), " 1 2; 1 -2; -2;");
    Ok(())
}
