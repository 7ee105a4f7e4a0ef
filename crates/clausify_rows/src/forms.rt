//! Clause forms of the facts, in two parts and in one.

use crate::words::text;
use clausify::{FactForm, are_listed_in, clauses_in};
use model_slice::{IndexedFacts, Slice, SymbolRoom};
use std::alloc::{AllocError, Global};
use ut_logic::{Formula, Node, Sequence};

/// The slice of both symbols.
pub fn slice(alloc: Global) -> Result<Slice, AllocError> {
    let nodes = vec![in alloc; Node::Sym(0), Node::Sym(1)]?;
    Ok(Slice {
        nodes: Sequence::from_vec(nodes),
    })
}

/// The form before the wish, where each item is listed.
pub fn begun(
    alloc: Global,
    store: &IndexedFacts<'_>,
    held: &[Formula],
    slice: &Slice,
) -> Result<Option<FactForm>, AllocError> {
    if !are_listed_in(alloc, store, held, slice, &[])? {
        return Ok(None);
    }
    let mut room = SymbolRoom::new(alloc, 1)?;
    let form = FactForm::of(alloc, store, &mut room, held, slice)?;
    Ok(Some(form))
}

/// The text of the form with a wish.
pub fn wished(alloc: Global, form: &FactForm, wish: &[Formula]) -> Result<String, AllocError> {
    if !form.has_items_of(alloc, wish)? {
        return String::from_str(alloc, "not listed");
    }
    let cnf = form.with_wish(alloc, wish)?;
    text(alloc, &cnf)
}

/// The text of the form that is made in one.
pub fn whole(
    alloc: Global,
    store: &IndexedFacts<'_>,
    held: &[Formula],
    slice: &Slice,
    wish: &[Formula],
) -> Result<String, AllocError> {
    if !are_listed_in(alloc, store, held, slice, wish)? {
        return String::from_str(alloc, "not listed");
    }
    let mut room = SymbolRoom::new(alloc, 1)?;
    let cnf = clauses_in(alloc, store, &mut room, held, slice, wish)?;
    text(alloc, &cnf)
}
