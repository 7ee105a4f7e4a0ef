ghost use Rattle.std.specs.Prelude.{◌≡◌, ◌<◌, length, slice_index_or, IfSome, IsTrue};
ghost use Rattle.ut_logic.specs.declared.item.Item as declared;
ghost use Rattle.ut_logic.specs.Variables.{AreDistinct};
ghost use Rattle.clausify.specs.ClauseForm.{var_of};

use indexmap::IndexSet;
use model_slice::SymbolRoom;
use std::marker::Model;
use ut_logic::Item;

/// The variables of items: that of an item is its place from 1. Symbols are found by what the room notes for
/// them, and where that leads to no such item, by a search, as all other items.
#[derive(Drop)]
pub struct Variables<'a> {
    items: &'a IndexSet<Item>,
    room: &'a SymbolRoom,
}

impl<'a> Model for Variables<'a> {
    ghost use Rattle.std.specs.Prelude.{List};
    ghost use Rattle.ut_logic.specs.declared.item.Item.{Item};

    ghost Value = { List Item };

    ghost view = { λ v. v.items.now.keys };
}

impl<'a> Variables<'a> {
    /// The variables of these items.
    pub fn new(items: &'a IndexSet<Item>, room: &'a SymbolRoom) -> Variables<'a>
        ensures { result ≡ items.now.keys }
    {
        Variables { items, room }
    }

    /// How many items there are.
    pub fn len(&self) -> usize
        ensures { result ≡ length self.now }
    {
        self.items.len()
    }

    /// The variable of an item, or 0 where it has none.
    pub fn var(&self, item: Item) -> u64
        ensures { result ≡ var_of self.now item }
    {
        match at_place(self.items, noted(self.room, item), item) {
            Some(var) => var,
            None => searched(self.items, item),
        }
    }
}

/// Notes the places of symbols among the items, where there is room for them.
pub fn note_symbols(items: &[Item], room: &mut SymbolRoom) {
    for place in 0..items.len() {
        if let Item::SymY(sym) = items[place] {
            if (sym as usize) < room.len() {
                room.note(sym, place);
            }
        }
    }
}

/// Where the item may stand, by what the room notes: what says that a symbol is m comes right after what says
/// that it is y.
fn noted(room: &SymbolRoom, item: Item) -> Option<usize> {
    match item {
        Item::SymY(sym) => noted_symbol(room, sym),
        Item::SymM(sym) => noted_symbol(room, sym)?.checked_add(1),
        _ => None,
    }
}

/// What the room notes for the symbol, if it has a place for it.
fn noted_symbol(room: &SymbolRoom, sym: u32) -> Option<usize> {
    if (sym as usize) < room.len() {
        Some(room.place(sym))
    } else {
        None
    }
}

/// The variable of the item, if it stands at the place.
fn at_place(items: &IndexSet<Item>, place: Option<usize>, item: Item) -> Option<u64>
    ensures { IfSome result (λ var. var ≡ var_of items.now.keys item) }
{
    at(items.as_slice(), place?, item)
}

/// The variable of the item, if it stands at the place.
fn at(items: &[Item], place: usize, item: Item) -> Option<u64>
    requires { AreDistinct items.now }
    ensures { IfSome result (λ var. var ≡ var_of items.now item) }
{
    let count = items.len();
    if stands_at(items, place, item) {
        prove!(place < count);
        Some(place as u64 + 1)
    } else {
        None
    }
}

/// Whether the item stands at the place.
fn stands_at(items: &[Item], place: usize, item: Item) -> bool
    ensures within { IsTrue result → place < length items.now }
    ensures is { IsTrue result → (d : declared.Item) → slice_index_or items.now place d ≡ item }
{
    place < items.len() && item_at(items, place) == item
}

/// The item at the place.
fn item_at(items: &[Item], place: usize) -> Item
    requires { place < length items.now }
    ensures { (d : declared.Item) → slice_index_or items.now place d ≡ result }
{
    items[place]
}

/// The variable of an item, by a search.
fn searched(items: &IndexSet<Item>, item: Item) -> u64
    ensures { result ≡ var_of items.now.keys item }
{
    let count = items.len();
    match items.get_index_of(&item) {
        Some(place) => {
            prove!(place < count);
            place as u64 + 1
        }
        None => 0,
    }
}
