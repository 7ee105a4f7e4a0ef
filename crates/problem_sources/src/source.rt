ghost use Rattle.std.specs.Prelude.{◌≡◌};
ghost use Rattle.kbuild_paths.specs.Paths as spec;

use cpp_blocks::Blocks;
use cpp_directives::CppBad;
use kbuild_files::{FileConds, cond_of};
use kbuild_paths::Path;
use ut_base::Name;

/// A source: its name, and its blocks or the first fault of its text.
#[derive(Drop)]
pub struct Source {
    pub name: Name,
    pub blocks: Result<Blocks, CppBad>,
}

/// The paths by which a source is built.
pub fn paths_of<'a>(conds: &'a FileConds, source: &Source) -> &'a [Path]
    ensures { result.now ≡ spec.paths_of conds.now source.now.name }
{
    cond_of(conds, &source.name).paths.as_slice()
}
