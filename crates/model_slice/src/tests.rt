use crate::{IndexedFacts, SymbolRoom, are_known, slice, slice_in};
use std::alloc::{AllocError, Global};
use std::fmt::Write;
use std::process::Abort;
use std::test::Fail;
use ut_logic::{Fact, Facts, Node, Sequence};

/// The node of a letter and a number: a symbol, a choice, or a block or start of file 0.
fn node(word: &str) -> Option<Node> {
    let (letter, number) = word.split_at_checked(1)?;
    let number = number.parse::<u32>().ok()?;
    match letter {
        "s" => Some(Node::Sym(number)),
        "c" => Some(Node::Choice(number)),
        "b" => Some(Node::Block {
            file: 0,
            block: number,
        }),
        "t" => Some(Node::State {
            file: 0,
            name: number,
            turn: 0,
        }),
        _ => None,
    }
}

/// The nodes of words with one blank between.
fn nodes(alloc: Global, words: &str) -> Result<Vec<Node>, AllocError> {
    let mut list = Vec::new(alloc);
    for word in words.split(' ') {
        if let Some(node) = node(word) {
            list.push(node)?;
        }
    }
    Ok(list)
}

/// The words of nodes.
fn words(alloc: Global, nodes: &[Node]) -> Result<String, AllocError> {
    let mut text = String::new(alloc);
    for node in nodes {
        if !text.is_empty() {
            text.push(' ')?;
        }
        match node {
            Node::Sym(number) => write!(text, "s{number}")?,
            Node::Choice(number) => write!(text, "c{number}")?,
            Node::Block { block, .. } => write!(text, "b{block}")?,
            Node::State { name, .. } => write!(text, "t{name}")?,
        }
    }
    Ok(text)
}

/// The fact of a line: its node, and the nodes that it names.
fn fact(alloc: Global, line: &str) -> Result<Option<Fact>, AllocError> {
    let (own, names) = line.split_once(' ').unwrap_or((line, ""));
    let Some(node) = node(own) else {
        return Ok(None);
    };
    Ok(Some(Fact {
        node,
        holds: Sequence::new(alloc),
        defines: Sequence::new(alloc),
        names: Sequence::from_vec(nodes(alloc, names)?),
        items: Sequence::new(alloc),
    }))
}

/// The facts of lines with `; ` between.
fn facts(alloc: Global, lines: &str) -> Result<Facts, AllocError> {
    let mut list = Vec::new(alloc);
    for line in lines.split("; ") {
        if let Some(fact) = fact(alloc, line)? {
            list.push(fact)?;
        }
    }
    Ok(Facts {
        list: Sequence::from_vec(list),
    })
}

/// The slice over the roots, or that a node has no fact.
fn answer(
    alloc: Global,
    facts: &Facts,
    room: &mut SymbolRoom,
    roots: &[Node],
) -> Result<String, Fail> {
    if !are_known(alloc, facts, roots)? {
        return Ok(String::from_str(alloc, "a node without a fact")?);
    }
    let found = slice(alloc, facts, roots)?;
    let store = IndexedFacts::of(alloc, facts)?;
    let again = slice_in(alloc, &store, room, roots)?;
    if again.nodes.as_slice() != found.nodes.as_slice() {
        return Err(Fail::from("another slice with lent room"));
    }
    Ok(words(alloc, found.nodes.as_slice())?)
}

/// Roots, and the slice over them. The room has no place for symbols past 1, and keeps what the rows before noted.
fn check(rt: &impl Abort, alloc: Global, lines: &str, rows: &str) -> Result<(), Fail> {
    let facts = facts(alloc, lines)?;
    let mut room = SymbolRoom::new(alloc, 2)?;
    for row in rows.lines() {
        let (roots, want) = row.split_once(" => ").ok_or("a row")?;
        let found = answer(alloc, &facts, &mut room, &nodes(alloc, roots)?)?;
        assert!(rt; found.as_str() == want, "{row}: {found}");
    }
    Ok(())
}

/// A block in a file whose macro starts as the symbol 1, which depends on symbol 0; symbol 2 stands in a
/// choice that nothing else names.
const FACTS: &str = "s0; s1 s0; s2 s0 c0; c0 s2; b0; b1 t0 b0 b0; t0 s1";

/// The choice and its member need each other, and symbol 3 has no fact.
const ROWS: &str = "\
b1 b1 => s0 s1 b0 b1 t0
c0 => s0 s2 c0
s3 => a node without a fact";

#[test]
fn a_slice_has_what_its_nodes_name_and_no_more(rt: HostRuntime) -> Result<(), Fail> {
    check(&rt, rt.alloc(), FACTS, ROWS)?;
    check(&rt, rt.alloc(), "s0; s3 s4", " => a node without a fact")
}
