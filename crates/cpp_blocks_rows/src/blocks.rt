ghost use Rattle.std.specs.Prelude.{IfOk};
ghost use Rattle.cpp_directives.specs.WellFormed.{IsWellFormed};

use cpp_blocks::{Blocks, is_well_formed};
use cpp_directives::Directive;
use cpp_read::directives;
use std::alloc::Global;
use std::test::Fail;

/// The directives of a C text, in which `; ` stands for a line's end too.
fn read(alloc: Global, text: &str) -> Result<Vec<Directive>, Fail> {
    let lines = text.replace(alloc, "; ", "\n")?;
    let bytes = lines.as_bytes();
    if bytes.len() > 16_777_216 {
        return Err(Fail::from("a long text"));
    }
    Ok(directives(alloc, bytes)?)
}

/// The blocks of a C text.
pub fn blocks_of(alloc: Global, text: &str) -> Result<Blocks, Fail> {
    let list = read(alloc, text)?;
    if !is_well_formed(alloc, &list)? {
        return Err(Fail::from("chains that do not match"));
    }
    Ok(Blocks::build(alloc, list)?)
}
