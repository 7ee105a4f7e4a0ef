ghost use Rattle.std.specs.Prelude.{◌≡◌, ◌<◌, ◌≤◌, ◌++◌, IfOk, IfErr, OnOk, option_to_list, length};
ghost use Rattle.std.specs.List.{list_all};
ghost use Rattle.kconf_entries.specs.BoolEntries as made;
ghost use Rattle.undertaker.specs.FirstKconfig.Form as spec;
ghost use Rattle.undertaker.specs.FirstKconfig.Reading.{Finishes, Steps, Gives};
ghost use Rattle.undertaker.specs.declared.first_bad.FirstBad.TheVariants as bad;
ghost use Rattle.undertaker.specs.declared.first_kconfig.lines.FirstLine.TheVariants as says;

use super::lines::{FirstLine, first_line};
use crate::first_bad::FirstBad;
use indexmap::IndexSet;
use kconf_entries::{ConfigEntry, Entries, Kind, all_of_names};
use sqlite_items::Items;
use std::alloc::{AllocError, Global};
use std::marker::Model;
use std::mem;
use ut_logic::{Sequence, Text};
use ut_text::split_line;

const MOST_ENTRIES: usize = 4096;

/// Where a line stands in a text of the first form: before every entry, after a `config` line, or in an entry.
#[derive(Drop)]
pub enum Place {
    Start,
    Heading(Text),
    Entry { name: Text, needs: Items<Text> },
}

/// The names that are declared so far, and the place.
#[derive(Drop)]
struct FirstReader {
    declared: IndexSet<Text>,
    place: Place,
}

impl Model for FirstReader {
    ghost use Rattle.undertaker.specs.FirstKconfig.Form.{Reading};

    ghost Value = { Reading };

    ghost view = { λ r. record { declared = r.declared.keys; place = r.place } };
}

/// The entry of a symbol that depends on these.
fn bool_entry(alloc: Global, name: Text, needs: &[Text]) -> Result<ConfigEntry, AllocError>
    ensures { IfOk result (λ e. e ≡ made.bool_entry name needs.now) }
{
    let depends = all_of_names(alloc, needs)?;
    let prompt = depends.copy(alloc)?;
    Ok(ConfigEntry {
        name,
        kind: Kind::Bool,
        depends,
        prompts: Sequence::from_vec(vec![in alloc; prompt]?),
        defaults: Sequence::new(alloc),
        selects: Sequence::new(alloc),
        implies: Sequence::new(alloc),
        modules: false,
        choice: None,
    })
}

/// The entry that ends at a place.
fn ended(alloc: Global, line: u32, place: Place) -> Result<Option<ConfigEntry>, FirstBad>
    ensures { Finishes result line (spec.ended place) }
{
    match place {
        Place::Start => Ok(None),
        Place::Heading(_) => Err(FirstBad::NotYet { line }),
        Place::Entry { name, needs } => {
            let entry = bool_entry(alloc, name, needs.as_slice())?;
            Ok(Some(entry))
        }
    }
}

impl FirstReader {
    /// A reader before the first line.
    fn new(alloc: Global) -> FirstReader
        ensures { result ≡ spec.start }
    {
        FirstReader {
            declared: IndexSet::new(alloc),
            place: Place::Start,
        }
    }

    /// Whether an earlier `config` line has the name.
    fn is_declared(&self, name: &Text) -> bool
        ensures { result ≡ spec.is_declared self.now.declared name.now }
    {
        self.declared.contains(name)
    }

    /// Whether a `config` line of this name is refused: the name is declared, or there are as many symbols as may be.
    fn is_refused(&self, name: &Text) -> bool
        ensures { result ≡ spec.is_refused self.now.declared name.now }
    {
        self.is_declared(name) || self.declared.len() >= MOST_ENTRIES
    }

    /// Whether each name is declared before, and none is the own one.
    fn are_earlier(&self, own: &Text, names: &[Text]) -> bool
        ensures { result ≡ list_all (spec.is_earlier self.now.declared own.now) names.now }
    {
        for name in names {
            if !self.is_declared(name) || *name == *own {
                return false;
            }
        }
        true
    }

    /// A `config` line.
    fn config(
        &mut self,
        alloc: Global,
        line: u32,
        name: Text,
    ) -> Result<Option<ConfigEntry>, FirstBad>
        ensures { Steps result line self.new (spec.heading self.old.declared name (spec.ended self.old.place)) }
    {
        let place = mem::replace(&mut self.place, Place::Start);
        let done = ended(alloc, line, place)?;
        if self.is_refused(&name) {
            return Err(FirstBad::NotYet { line });
        }
        self.declared.insert(name.copy(alloc)?)?;
        self.place = Place::Heading(name);
        Ok(done)
    }

    /// A `bool` line.
    fn prompt(&mut self, alloc: Global, line: u32) -> Result<Option<ConfigEntry>, FirstBad>
        ensures { Steps result line self.new (spec.step self.old.declared self.old.place says.Prompt) }
    {
        match mem::replace(&mut self.place, Place::Start) {
            Place::Heading(name) => {
                self.place = Place::Entry {
                    name,
                    needs: Items::new(alloc),
                };
                Ok(None)
            }
            _ => Err(FirstBad::NotYet { line }),
        }
    }

    /// A `depends on` line.
    fn depends(&mut self, line: u32, names: Items<Text>) -> Result<Option<ConfigEntry>, FirstBad>
        ensures { Steps result line self.new (spec.step self.old.declared self.old.place (says.Depends names)) }
    {
        match mem::replace(&mut self.place, Place::Start) {
            Place::Entry { name, needs } => self.need(line, name, needs, names),
            _ => Err(FirstBad::NotYet { line }),
        }
    }

    /// A `depends on` line with these names.
    fn need(
        &mut self,
        line: u32,
        name: Text,
        mut needs: Items<Text>,
        names: Items<Text>,
    ) -> Result<Option<ConfigEntry>, FirstBad>
        ensures { Steps result line self.new (spec.needing self.old.declared name needs names) }
    {
        if !self.are_earlier(&name, names.as_slice()) {
            return Err(FirstBad::NotYet { line });
        }
        needs.append(names)?;
        self.place = Place::Entry { name, needs };
        Ok(None)
    }

    /// What a line does that says this; a symbol whose lines are over is answered.
    fn step(
        &mut self,
        alloc: Global,
        line: u32,
        says: FirstLine,
    ) -> Result<Option<ConfigEntry>, FirstBad>
        ensures { Steps result line self.new (spec.step self.old.declared self.old.place says) }
    {
        match says {
            FirstLine::Config(name) => self.config(alloc, line, name),
            FirstLine::Prompt => self.prompt(alloc, line),
            FirstLine::Depends(names) => self.depends(line, names),
            FirstLine::Other => Err(FirstBad::NotYet { line }),
        }
    }

    /// One line.
    fn read(
        &mut self,
        alloc: Global,
        line: u32,
        text: &[u8],
    ) -> Result<Option<ConfigEntry>, FirstBad>
        ensures { Steps result line self.new (spec.step self.old.declared self.old.place (spec.first_line text.now)) }
    {
        let says = first_line(alloc, text)?;
        self.step(alloc, line, says)
    }
}

/// Puts the entry that a line ends, if it ends one, after the others.
fn keep(list: &mut Vec<ConfigEntry>, entry: Option<ConfigEntry>) -> Result<(), FirstBad>
    ensures list { OnOk result (list.new.items ≡ list.old.items ++ option_to_list entry) }
    ensures memory { IfErr result (λ e. e ≡ bad.Oom) }
{
    if let Some(entry) = entry {
        list.push(entry)?;
    }
    Ok(())
}

/// The entries of the bytes of a text.
pub fn first_entries(alloc: Global, bytes: &[u8]) -> Result<Entries, FirstBad>
    requires { length bytes.now ≤ 16777216 }
    ensures { Gives result (spec.first_tree_of bytes.now) }
{
    let mut reader = FirstReader::new(alloc);
    let mut list = Vec::new(alloc);
    let mut rest = bytes;
    let mut line = 1;
    'lines: while !rest.is_empty() {
        let (text, behind) = split_line(rest);
        let done = reader.read(alloc, line, text)?;
        keep(&mut list, done)?;
        rest = behind;
        line += 1;
    }
    let FirstReader { place, .. } = reader;
    let done = ended(alloc, line - 1, place)?;
    keep(&mut list, done)?;
    Ok(Entries {
        configs: Sequence::from_vec(list),
        choices: Sequence::new(alloc),
    })
}
