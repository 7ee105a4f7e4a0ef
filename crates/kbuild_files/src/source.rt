ghost use Rattle.std.specs.Prelude.{◌≡◌, ◌++◌, MatchOption};
ghost use Rattle.ut_text.specs.Bytes.{Bytes};
ghost use Rattle.kbuild_paths.specs.Paths.{IsSourceOf};

/// What stands before an ending.
fn before_ending<'a>(source: &'a [u8], ending: &[u8]) -> Option<&'a [u8]>
    ensures { MatchOption result ((front : Bytes) → ¬ (source.now ≡ front ++ ending.now)) (λ front. source.now ≡ front.now ++ ending.now) }
{
    source.strip_suffix(ending)
}

/// The file that a source belongs to.
fn without_ending(source: &[u8]) -> Option<&[u8]>
    ensures { MatchOption result ((file : Bytes) → ¬ IsSourceOf file source.now) (λ file. IsSourceOf file.now source.now) }
{
    match before_ending(source, b".c") {
        Some(file) => Some(file),
        None => before_ending(source, b".S"),
    }
}

/// The file, relative to the folder, that a source belongs to.
pub fn file_of<'a>(folder: &[u8], source: &'a [u8]) -> Option<&'a [u8]>
    ensures { MatchOption result ((file : Bytes) → ¬ IsSourceOf (folder.now ++ file) source.now) (λ file. IsSourceOf (folder.now ++ file.now) source.now) }
{
    match source.strip_prefix(folder) {
        Some(path) => without_ending(path),
        None => None,
    }
}
