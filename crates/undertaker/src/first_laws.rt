ghost use Rattle.std.specs.Prelude.{◌≡◌, ℕ, List, Err};
ghost use Rattle.ut_text.specs.Lines.{lines_of};
ghost use Rattle.undertaker.specs.FirstKconfig.Form.{first_tree_of};
ghost use Rattle.undertaker.specs.FirstKconfig.BadLine as kconfig;
ghost use Rattle.undertaker.specs.FirstSource.Form.{first_directives_of};
ghost use Rattle.undertaker.specs.FirstSource.BadLine as source;

/// Where a Kconfig text is not of the first form, the first line with which no text of the form begins is named, or
/// the last `config` line where the text ends after it.
pub fn bad_kconfig_line_is_named()
    ensures { (bytes : List ℕ) (n : ℕ) → first_tree_of bytes ≡ Err n → kconfig.IsNamed (lines_of bytes) n }
{}

/// Where a source is not of the first form, the first line with which no text of the form begins is named, or the
/// opener of the innermost chain that is open at the end.
pub fn bad_source_line_is_named()
    ensures { (bytes : List ℕ) (n : ℕ) → first_directives_of bytes ≡ Err n → source.IsNamed (lines_of bytes) n }
{}
