ghost use Rattle.std.specs.Prelude.{[], ◌≡◌, ◌<◌, ◌≤◌, ◌+◌, ◌^◌, ◌∷◌, ◌++◌, IfOk, OnOk, length};
ghost use Rattle.ut_base.specs.Limits.{file_bytes};
ghost use Rattle.kbuild_text.specs.Listings as spec;
ghost use Rattle.kbuild_text.specs.Variables.{meaning_of};

use crate::bad::TextBad;
use crate::chains::Chains;
use crate::goals::{Goal, read_goal};
use crate::lines::{read_line, uncommented};
use crate::marks::{Mark, push_marks};
use crate::statements::{Statement, read_statement};
use crate::variables::{Meaning, Role, read_meaning};
use crate::words::split_word;
use kbuild_paths::Path;
use sqlite_items::Items;
use std::alloc::{AllocError, Global};

/// A line that lists goals: what its words are, the steps under which they are, and what they name.
#[derive(Debug, Drop)]
pub struct Listing {
    pub role: Role,
    pub steps: Path,
    pub goals: Items<Goal>,
}

/// Whether folders count among the words.
fn takes_folders(role: &Role) -> bool
    ensures { result ≡ spec.takes_folders role.now }
{
    match role {
        Role::Goals { folders } => *folders,
        Role::Parts { .. } => false,
    }
}

/// Adds what a word names.
fn push_goal(goals: &mut Items<Goal>, folders: bool, goal: Option<Goal>) -> Result<(), AllocError>
    ensures { OnOk result (goals.new ≡ goals.old ++ spec.onto_goals folders goal []) }
{
    match goal {
        None => Ok(()),
        Some(Goal::Folder(_)) if !folders => Ok(()),
        Some(goal) => goals.push(goal),
    }
}

/// What the words name.
fn goals_of(alloc: Global, folders: bool, words: &[Mark]) -> Result<Items<Goal>, AllocError>
    ensures { IfOk result (λ goals. goals ≡ spec.goals_of folders (spec.words_of words.now)) }
{
    let mut goals = Items::new(alloc);
    let mut rest = words;
    while let Some((word, after)) = split_word(rest) {
        push_goal(&mut goals, folders, read_goal(alloc, word)?)?;
        rest = after;
    }
    Ok(goals)
}

/// The listing of an assignment in these conditional parts.
fn make_listing(
    alloc: Global,
    chains: &Chains,
    meaning: Meaning,
    words: &[Mark],
) -> Result<Listing, AllocError>
    ensures { IfOk result (λ listing. listing ≡ spec.listing_under chains.now meaning (spec.words_of words.now)) }
{
    let Meaning { role, step } = meaning;
    let mut steps = chains.steps(alloc)?;
    if let Some(step) = step {
        steps.push(step)?;
    }
    let goals = goals_of(alloc, takes_folders(&role), words)?;
    Ok(Listing { role, steps, goals })
}

/// What was read of a text: the conditional parts that are open, and the listings.
#[derive(Drop)]
struct Reader {
    chains: Chains,
    listings: Items<Listing>,
}

impl Reader {
    /// Adds the listing of an assignment, if it has an effect.
    fn assign(
        &mut self,
        alloc: Global,
        variable: &[Mark],
        values: &[Mark],
    ) -> Result<(), AllocError>
        ensures chains { self.new.chains ≡ self.old.chains }
        ensures listings { OnOk result (self.new.listings ≡ self.old.listings ++ spec.listings_under self.old.chains (meaning_of variable.now) (spec.words_of values.now)) }
    {
        if let Some(meaning) = read_meaning(alloc, variable)? {
            let listing = make_listing(alloc, &self.chains, meaning, values)?;
            self.listings.push(listing)?;
        }
        Ok(())
    }

    /// Reads one line.
    fn read(&mut self, alloc: Global, number: u32, line: &[Mark]) -> Result<(), TextBad>
        ensures { spec.ReadsLine self.old number line.now result self.new }
    {
        match read_statement(line) {
            Statement::Assigns { variable, values } => self.assign(alloc, variable, values)?,
            Statement::Opens => self.chains.open(alloc, number, line)?,
            Statement::Turns { rest } => {
                if !self.chains.turn(alloc, rest)? {
                    return Err(TextBad::Line(number));
                }
            }
            Statement::Closes => {
                if !self.chains.close() {
                    return Err(TextBad::Line(number));
                }
            }
            Statement::Other => {}
        }
        Ok(())
    }

    /// What was read, where no conditional part is open.
    fn finish(self) -> Result<Items<Listing>, TextBad>
        ensures { spec.Ends self result }
    {
        let Reader { chains, listings } = self;
        match chains.outermost() {
            Some(line) => Err(TextBad::Line(line)),
            None => Ok(listings),
        }
    }
}

/// The lines of a text that list goals, in order.
///
/// The errors are the lowest conditional line without a partner, and want of memory.
pub fn listings_of(alloc: Global, text: &[u8]) -> Result<Items<Listing>, TextBad>
    requires { length text.now ≤ file_bytes }
    ensures { spec.ReadsText text.now result }
{
    let mut reader = Reader {
        chains: Chains::new(alloc),
        listings: Items::new(alloc),
    };
    let mut line = Vec::new(alloc);
    let mut marks = Vec::new(alloc);
    let mut rest = text;
    let mut number = 1;
    while !rest.is_empty() {
        line.clear();
        let (after, count) = read_line(rest, &mut line)?;
        marks.clear();
        push_marks(uncommented(line.as_slice()), &mut marks)?;
        reader.read(alloc, number, marks.as_slice())?;
        rest = after;
        number += count;
    }
    reader.finish()
}
