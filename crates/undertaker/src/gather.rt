ghost use Rattle.std.specs.Prelude.{◌≡◌, ◌≤◌, IfOk, IfSome, MatchResult, length};
ghost use Rattle.std.specs.FinMap.{get};
ghost use Rattle.ut_base.specs.Outside.{HasCause};
ghost use Rattle.kconf_tree.specs.Gathered.{gathered};
ghost use Rattle.undertaker.specs.FirstSource.Form.{first_directives_of};
ghost use Rattle.undertaker.specs.FirstEntries.{IsFirstTree};
ghost use Rattle.undertaker.specs.Outcome.{outcome_of};
ghost use Rattle.undertaker.specs.Plain.{IsFirstSource};
ghost use Rattle.undertaker.specs.Words.{names_in};
ghost use Rattle.undertaker.specs.Gather.{EndsAs, Gathers, IsBadOf, Names, NamesKconfig, NamesSource, ReadsEntries, ReadsSource};
ghost use Rattle.undertaker.specs.Written.{AreLinesOn};
ghost use Rattle.undertaker.specs.declared.bad.Bad.TheVariants as bad;

use crate::bad::Bad;
use crate::decision::words_of;
use crate::first_bad::FirstBad;
use crate::first_kconfig::first_tree;
use crate::first_source::first_directives;
use crate::lines::Line;
use crate::report::{refused_lines, verdict_lines};
use crate::status::Status;
use crate::words::names_of;
use cpp_directives::Directive;
use kconf_entries::Entries;
use std::alloc::{AllocError, Global};
use ut_base::{Files, Meter, Name, TakeBad, Word, take};

/// The entries of the Kconfig text, which is the first file that is taken.
fn read_entries<F: Files>(
    alloc: Global,
    files: &mut F,
    name: &Name,
    meter: &mut Meter,
) -> Result<Entries, Bad>
    requires { meter.old ≡ 0 }
    ensures told { IfSome (F.held files.old) (λ held. ReadsEntries name.now (get held name.now) result) }
    ensures same { F.held files.new ≡ F.held files.old }
    ensures named { NamesKconfig name.now result }
    ensures first { IfOk result (λ entries. IsFirstTree entries) }
    ensures within { meter.new ≤ 16777216 }
    ensures read_fault { HasCause (F.faults files.old) (F.faults files.new) (EndsAs result Status.ReadFault) }
    ensures missing { HasCause (F.missing files.old) (F.missing files.new) (EndsAs result Status.Missing) }
    ensures long { HasCause (F.long files.old) (F.long files.new) (EndsAs result Status.Limit) }
{
    match first_tree(alloc, files, name, meter) {
        Ok(entries) => Ok(entries),
        Err(bad) => Err(Bad::Kconfig(bad)),
    }
}

/// Why the source with this name was not taken.
fn source_bad(alloc: Global, name: &Name, bad: TakeBad) -> Bad
    ensures { IsBadOf name.now bad result }
{
    match name.copy(alloc) {
        Ok(name) => Bad::Source { name, bad },
        Err(_) => Bad::Oom,
    }
}

/// The bytes of the source, which is taken after one other file.
fn read_source<F: Files>(
    alloc: Global,
    files: &mut F,
    name: &Name,
    meter: &mut Meter,
) -> Result<Vec<u8>, Bad>
    requires { meter.old ≤ 16777216 }
    ensures told { IfSome (F.held files.old) (λ held. ReadsSource name.now (get held name.now) result) }
    ensures same { F.held files.new ≡ F.held files.old }
    ensures named { NamesSource name.now result }
    ensures within { IfOk result (λ bytes. length bytes.items ≤ 16777216) }
    ensures read_fault { HasCause (F.faults files.old) (F.faults files.new) (EndsAs result Status.ReadFault) }
    ensures missing { HasCause (F.missing files.old) (F.missing files.new) (EndsAs result Status.Missing) }
    ensures long { HasCause (F.long files.old) (F.long files.new) (EndsAs result Status.Limit) }
{
    match take(alloc, files, name, meter) {
        Ok(bytes) => Ok(bytes),
        Err(bad) => Err(source_bad(alloc, name, bad)),
    }
}

/// The lines of a source whose directives were read.
fn lines_of_blocks(
    alloc: Global,
    entries: &Entries,
    name: &Name,
    list: &[Directive],
) -> Result<Vec<Line>, AllocError>
    requires tree { IsFirstTree entries.now }
    requires source { IsFirstSource list.now }
    ensures { IfOk result (λ lines. AreLinesOn (gathered entries.now) name.now (Ok list.now) lines.items) }
{
    let words = words_of(alloc, entries, list)?;
    verdict_lines(alloc, name, words.as_slice())
}

/// The lines of the source with these bytes.
fn lines_of_source(
    alloc: Global,
    entries: &Entries,
    name: &Name,
    bytes: &[u8],
) -> Result<Vec<Line>, AllocError>
    requires length { length bytes.now ≤ 16777216 }
    requires tree { IsFirstTree entries.now }
    ensures { IfOk result (λ lines. AreLinesOn (gathered entries.now) name.now (first_directives_of bytes.now) lines.items) }
{
    match first_directives(alloc, bytes) {
        Ok(list) => lines_of_blocks(alloc, entries, name, list.as_slice()),
        Err(FirstBad::NotYet { line }) => refused_lines(alloc, name, line),
        Err(FirstBad::Oom) => Err(AllocError),
    }
}

/// The same lines, where want of memory ends the run.
fn lines_or_end(
    alloc: Global,
    entries: &Entries,
    name: &Name,
    bytes: &[u8],
) -> Result<Vec<Line>, Bad>
    requires length { length bytes.now ≤ 16777216 }
    requires tree { IsFirstTree entries.now }
    ensures { MatchResult result
        (λ lines. AreLinesOn (gathered entries.now) name.now (first_directives_of bytes.now) lines.items)
        (λ e. e ≡ bad.Oom) }
{
    lines_of_source(alloc, entries, name, bytes).map_err(|_| Bad::Oom)
}

/// The lines of the report, or the first refusal: that of the words, the Kconfig text, the source.
pub(crate) fn gather<F: Files>(
    alloc: Global,
    words: &[Word],
    files: &mut F,
) -> Result<Vec<Line>, Bad>
    ensures told { IfSome (F.held files.old) (λ held. Gathers (outcome_of words.now held) result) }
    ensures same { F.held files.new ≡ F.held files.old }
    ensures named { Names (names_in words.now) result }
    ensures read_fault { HasCause (F.faults files.old) (F.faults files.new) (EndsAs result Status.ReadFault) }
    ensures missing { HasCause (F.missing files.old) (F.missing files.new) (EndsAs result Status.Missing) }
    ensures long { HasCause (F.long files.old) (F.long files.new) (EndsAs result Status.Limit) }
{
    let (kconfig, source) = match names_of(alloc, words) {
        Ok(Some(names)) => names,
        Ok(None) => return Err(Bad::Usage),
        Err(_) => return Err(Bad::Oom),
    };
    let mut meter = Meter::new();
    let entries = read_entries(alloc, files, &kconfig, &mut meter)?;
    let bytes = read_source(alloc, files, &source, &mut meter)?;
    lines_or_end(alloc, &entries, &source, bytes.as_slice())
}
