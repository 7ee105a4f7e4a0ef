//! The command line as a command of clap.
ghost use Rattle.std.specs.Prelude.{◌≡◌, IfOk};
ghost use Rattle.clap.specs.Words.{app_of};
ghost use Rattle.ut_words.specs.Command.{the_app, bare_app, short_rule, long_rule, flag_rule, file_rule, with_run, with_kconfig, with_kbuild, with_steps, with_evidence, with_settings, with_reports, with_lists, with_shape, IsOption};

use clap::{Arg, ArgAction, Command};
use std::alloc::{AllocError, Global};

fn short_option<'a>(alloc: Global, id: &'a str, letter: char) -> Arg<'a>
    ensures { IsOption (short_rule id.entry.now letter) result }
{
    Arg::new(alloc, id).short(letter).action(ArgAction::Set)
}

fn long_option<'a>(alloc: Global, id: &'a str, name: &'a str) -> Arg<'a>
    ensures { IsOption (long_rule id.entry.now name.entry.now) result }
{
    Arg::new(alloc, id).long(name).action(ArgAction::Set)
}

fn long_flag<'a>(alloc: Global, id: &'a str, name: &'a str) -> Arg<'a>
    ensures { IsOption (flag_rule id.entry.now name.entry.now) result }
{
    Arg::new(alloc, id).long(name).action(ArgAction::SetTrue)
}

fn file<'a>(alloc: Global) -> Arg<'a>
    ensures { IsOption file_rule result }
{
    Arg::new(alloc, "FILE").action(ArgAction::Append)
}

fn bare<'a>(alloc: Global) -> Command<'a>
    ensures { app_of result ≡ bare_app }
{
    Command::new(alloc, "undertaker")
        .no_binary_name(true)
        .disable_help_flag(true)
        .disable_version_flag(true)
}

fn run_options<'a>(alloc: Global, command: Command<'a>) -> Result<Command<'a>, AllocError>
    ensures { IfOk result (λ c. app_of c ≡ with_run (app_of command.entry)) }
{
    command
        .arg(short_option(alloc, "-j", 'j'))?
        .arg(short_option(alloc, "-t", 't'))
}

fn kconfig<'a>(alloc: Global, command: Command<'a>) -> Result<Command<'a>, AllocError>
    ensures { IfOk result (λ c. app_of c ≡ with_kconfig (app_of command.entry)) }
{
    command.arg(long_option(alloc, "--kconfig", "kconfig"))
}

fn kbuild<'a>(alloc: Global, command: Command<'a>) -> Result<Command<'a>, AllocError>
    ensures { IfOk result (λ c. app_of c ≡ with_kbuild (app_of command.entry)) }
{
    command
        .arg(long_option(alloc, "--kbuild", "kbuild"))?
        .arg(long_option(alloc, "--var", "var"))
}

fn steps<'a>(alloc: Global, command: Command<'a>) -> Result<Command<'a>, AllocError>
    ensures { IfOk result (λ c. app_of c ≡ with_steps (app_of command.entry)) }
{
    command.arg(long_option(alloc, "--steps", "steps"))
}

fn evidence<'a>(alloc: Global, command: Command<'a>) -> Result<Command<'a>, AllocError>
    ensures { IfOk result (λ c. app_of c ≡ with_evidence (app_of command.entry)) }
{
    command.arg(long_flag(alloc, "--evidence", "evidence"))
}

fn settings<'a>(alloc: Global, command: Command<'a>) -> Result<Command<'a>, AllocError>
    ensures { IfOk result (λ c. app_of c ≡ with_settings (app_of command.entry)) }
{
    let command = kconfig(alloc, command)?;
    let command = kbuild(alloc, command)?;
    let command = steps(alloc, command)?;
    evidence(alloc, command)
}

fn reports<'a>(alloc: Global, command: Command<'a>) -> Result<Command<'a>, AllocError>
    ensures { IfOk result (λ c. app_of c ≡ with_reports (app_of command.entry)) }
{
    command
        .arg(long_option(alloc, "--report", "report"))?
        .arg(long_option(alloc, "--trace", "trace"))
}

fn lists<'a>(alloc: Global, command: Command<'a>) -> Result<Command<'a>, AllocError>
    ensures { IfOk result (λ c. app_of c ≡ with_lists (app_of command.entry)) }
{
    command
        .arg(long_option(alloc, "--white", "white"))?
        .arg(long_option(alloc, "--black", "black"))
}

fn shape<'a>(alloc: Global, command: Command<'a>) -> Result<Command<'a>, AllocError>
    ensures { IfOk result (λ c. app_of c ≡ with_shape (app_of command.entry)) }
{
    command
        .arg(long_option(alloc, "--style", "style"))?
        .arg(long_option(alloc, "--size", "size"))
}

/// Each option that is built, at most once, in any order with the files.
pub fn command<'a>(alloc: Global) -> Result<Command<'a>, AllocError>
    ensures { IfOk result (λ c. app_of c ≡ the_app) }
{
    let command = run_options(alloc, bare(alloc))?;
    let command = settings(alloc, command)?;
    let command = reports(alloc, command)?;
    let command = lists(alloc, command)?;
    shape(alloc, command)?.arg(file(alloc))
}
