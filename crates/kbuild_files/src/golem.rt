ghost use Rattle.std.specs.Prelude.{◌≡◌, ◌++◌, IfOk, OnOk, codes, map};
ghost use Rattle.kbuild_files.specs.Golem as spec;

use crate::conds::FileConds;
use kbuild_paths::{FileCond, Path, Step};
use std::alloc::{AllocError, Global};

fn push_step(text: &mut Vec<u8>, step: &Step) -> Result<(), AllocError>
    ensures { OnOk result (text.new.items ≡ text.old.items ++ spec.step_text step.now) }
{
    match step {
        Step::On(name) => {
            text.extend_from_slice(b"CONFIG_")?;
            text.extend_from_slice(name.text().as_bytes())
        }
        Step::Free(free) => {
            text.extend_from_slice(b"\"")?;
            text.extend_from_slice(free.text().as_bytes())?;
            text.extend_from_slice(b"\"")
        }
    }
}

fn push_path(text: &mut Vec<u8>, path: &Path) -> Result<(), AllocError>
    ensures { OnOk result (text.new.items ≡ text.old.items ++ spec.path_text path.now) }
{
    match path.as_slice() {
        [] => text.extend_from_slice(b"y"),
        [first, rest @ ..] => {
            push_step(text, first)?;
            push_more_steps(text, rest)
        }
    }
}

/// The steps after the first.
fn push_more_steps(text: &mut Vec<u8>, steps: &[Step]) -> Result<(), AllocError>
    ensures { OnOk result (text.new.items ≡ text.old.items ++ spec.led_by (codes " && ") (map spec.step_text steps.now)) }
{
    for step in steps {
        text.extend_from_slice(b" && ")?;
        push_step(text, step)?;
    }
    Ok(())
}

fn push_paths(text: &mut Vec<u8>, paths: &[Path]) -> Result<(), AllocError>
    ensures { OnOk result (text.new.items ≡ text.old.items ++ spec.paths_text paths.now) }
{
    match paths {
        [] => Ok(()),
        [first, rest @ ..] => {
            push_path(text, first)?;
            push_more_paths(text, rest)
        }
    }
}

/// The paths after the first.
fn push_more_paths(text: &mut Vec<u8>, paths: &[Path]) -> Result<(), AllocError>
    ensures { OnOk result (text.new.items ≡ text.old.items ++ spec.led_by (codes " || ") (map spec.path_text paths.now)) }
{
    for path in paths {
        text.extend_from_slice(b" || ")?;
        push_path(text, path)?;
    }
    Ok(())
}

fn push_line(text: &mut Vec<u8>, name: &[u8], cond: &FileCond) -> Result<(), AllocError>
    ensures { OnOk result (text.new.items ≡ text.old.items ++ spec.file_line (record { name = name.now; paths = cond.now.paths })) }
{
    text.extend_from_slice(name)?;
    text.extend_from_slice(b" ")?;
    push_paths(text, cond.paths.as_slice())?;
    text.extend_from_slice(b"\n")
}

/// One line a file, in order of first mention: its name, a space, and its paths.
///
/// The only error is want of memory. This project's rule.
pub fn golem_text(alloc: Global, conds: &FileConds) -> Result<Vec<u8>, AllocError>
    ensures { IfOk result (λ text. text.items ≡ spec.golem_text_of conds.now) }
{
    let (names, conds) = conds.files();
    let mut text = Vec::new(alloc);
    for i in 0..names.len() {
        push_line(&mut text, names[i].as_slice(), &conds[i])?;
    }
    Ok(text)
}
