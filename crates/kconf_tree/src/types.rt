ghost use Rattle.std.specs.Prelude.{◌≡◌, ◌<◌, length, IfOk, IfSome, OnOk, if◌then◌else◌};
ghost use Rattle.indexmap.specs.IndexMap.{get, insert_entry};
ghost use Rattle.ut_text.specs.Text.{text_eq, text_eq-exact, text_equiv};
ghost use Rattle.std.specs.Hash as fed;
ghost use Rattle.std.proofs.Common.{ap};
ghost use Rattle.kconf_tree.specs.Shape as shape;
ghost use Rattle.kconf_tree.specs.Value as value;
ghost use Rattle.kconf_tree.specs.Gathered as spec;
ghost use Rattle.kconf_tree.specs.Types as types;

use crate::shape::Symbol;
use indexmap::{Equivalent, IndexMap};
use kconf_entries::{ConfigEntry, Kind, Side, Sign};
use sqlite_items::Items;
use std::alloc::{AllocError, Global};
use std::marker::Model;
use ut_logic::Text;

/// What the entries of one name declare together: the first type, and whether one has `modules`.
#[derive(Clone, Copy, Debug)]
pub struct Declared {
    pub kind: Kind,
    pub modules: bool,
}

/// A name that is looked up.
#[derive(Clone, Copy, PartialEq, Eq, Hash)]
struct Asked<'a>(&'a str);

impl<'a> Equivalent<Text> for Asked<'a> {
    ghost equivalent = { λ q. text_eq q.0.now };

    ghost respects_hash = { λ q k h. ap fed.str (text_eq-exact q.0.now k h) };

    ghost respects_eq = { λ q x y. text_equiv.congr q.0.now x y };

    fn equivalent(&self, key: &Text) -> bool {
        self.0 == key.text()
    }
}

/// The declared names in order of first declaration, each with what its entries declare.
#[derive(Drop)]
pub struct Types {
    map: IndexMap<Text, Declared>,
}

impl Model for Types {
    ghost use Rattle.std.specs.Prelude.{List};
    ghost use Rattle.ut_text.specs.Bytes.{Bytes};
    ghost use Rattle.kconf_tree.specs.declared.types.Declared.{Declared};

    ghost Value = { List (Bytes × Declared) };

    ghost view = { λ t. t.map.entries };
}

/// Whether a type's symbols have texts or numbers for values.
pub fn is_text_or_number(kind: Kind) -> bool
    ensures { result ≡ value.is_text_or_number kind }
{
    matches!(kind, Kind::Str | Kind::Hex | Kind::Int)
}

/// Whether this is the kind of an entry without a type line.
pub fn is_untyped(kind: Kind) -> bool
    ensures { result ≡ spec.is_untyped kind }
{
    matches!(kind, Kind::Untyped)
}

/// A symbol without properties.
fn bare_symbol(alloc: Global, name: &Text, kind: Kind) -> Result<Symbol, AllocError>
    ensures { IfOk result (λ s. s ≡ types.bare_symbol name.now kind) }
{
    Ok(Symbol {
        name: name.copy(alloc)?,
        kind,
        member_of: None,
        places: Items::new(alloc),
        prompts: Items::new(alloc),
        defaults: Items::new(alloc),
        selects: Items::new(alloc),
        implies: Items::new(alloc),
    })
}

/// What is declared by the earlier entries of a name and this one.
fn joined(earlier: Option<Declared>, config: &ConfigEntry) -> Declared
    ensures { result ≡ types.joined_with earlier config.now }
{
    match earlier {
        None => Declared {
            kind: config.kind,
            modules: config.modules,
        },
        Some(declared) => Declared {
            kind: if is_untyped(declared.kind) {
                config.kind
            } else {
                declared.kind
            },
            modules: declared.modules || config.modules,
        },
    }
}

/// Adds what the entry declares to that of the earlier ones.
fn add(
    alloc: Global,
    map: &mut IndexMap<Text, Declared>,
    config: &ConfigEntry,
) -> Result<(), AllocError>
    ensures { OnOk result (map.new.entries ≡ insert_entry text_eq map.old.entries config.now.name (types.joined_with (get text_eq map.old config.now.name) config.now)) }
{
    let declared = joined(map.get(&config.name).copied(), config);
    let name = config.name.copy(alloc)?;
    map.insert(name, declared)?;
    Ok(())
}

impl Types {
    /// The names that the entries declare. The only error is out of memory.
    pub fn of(alloc: Global, configs: &[ConfigEntry]) -> Result<Types, AllocError>
        ensures { IfOk result (λ t. t ≡ types.types_of configs.now) }
    {
        let mut map = IndexMap::new(alloc);
        for config in configs {
            add(alloc, &mut map, config)?;
        }
        Ok(Types { map })
    }

    /// The number of names.
    pub fn len(&self) -> usize
        ensures { result ≡ length self.now }
    {
        self.map.len()
    }

    /// The number of a declared name.
    pub fn number(&self, name: &Text) -> Option<usize>
        ensures number { result ≡ shape.number_of (types.typed self.now) name.now }
        ensures within { IfSome result (λ k. k < length self.now) }
    {
        self.map.get_index_of(name)
    }

    /// The number of a declared name, given as a text.
    pub fn number_of_text(&self, name: &str) -> Option<usize>
        ensures number { result ≡ shape.number_of (types.typed self.now) name.now }
        ensures within { IfSome result (λ k. k < length self.now) }
    {
        self.map.get_index_of(Asked(name))
    }

    /// What the symbol with this number is declared as.
    pub fn at(&self, number: usize) -> Declared
        requires { number < length self.now }
        ensures { result ≡ types.declared_at self.now number }
    {
        match self.map.get_index(number) {
            Some((_, declared)) => *declared,
            None => unreachable!(),
        }
    }

    /// The symbol with this number, without properties.
    pub fn bare_symbol(&self, alloc: Global, number: usize) -> Result<Symbol, AllocError>
        requires { number < length self.now }
        ensures { IfOk result (λ s. s ≡ shape.symbol_at (types.typed self.now) number) }
    {
        match self.map.get_index(number) {
            Some((name, declared)) => bare_symbol(alloc, name, declared.kind),
            None => unreachable!(),
        }
    }

    /// Whether a side has one of the three values.
    fn has_trit(&self, side: &Side) -> bool
        ensures { result ≡ value.has_trit (types.typed self.now) side.now }
    {
        match side {
            Side::Const(_) => true,
            Side::Name(name) => match self.number(name) {
                None => true,
                Some(number) => !is_text_or_number(self.at(number).kind),
            },
            Side::Literal(_) | Side::Quoted(_) => false,
        }
    }

    /// Whether a comparison compares two of the three values; every other is an outer condition.
    pub fn compares_trits(&self, left: &Side, sign: Sign, right: &Side) -> bool
        ensures { result ≡ value.compares_trits (types.typed self.now) left.now sign right.now }
    {
        matches!(sign, Sign::Same | Sign::Differ) && self.has_trit(left) && self.has_trit(right)
    }
}
