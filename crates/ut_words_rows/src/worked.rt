ghost use Rattle.std.specs.Prelude.{◌≡◌, [], ◌∷◌, codes, true, Some, Ok, Err};
ghost use Rattle.ut_words.specs.declared.order.Job.TheVariants as job;
ghost use Rattle.ut_words.specs.declared.order.Style.TheVariants as style;
ghost use Rattle.ut_words.specs.declared.order.UsageKind.TheVariants as usage;
ghost use Rattle.ut_words_rows.specs.Worked.{bare, read, read_today};
ghost use Rattle.ut_words.specs.Lists.{IsList};
ghost use Rattle.ut_words.specs.Words.{order_of};
ghost use Rattle.ut_words.specs.declared.wishes.ListKind.TheVariants.{Black, White};
ghost use Rattle.ut_words.specs.declared.wishes.ListWish.TheVariants.{Off, On};

/// Each spelling of a value: the next word, `=`, joined to one letter, `-` alone, the empty one.
pub fn spellings()
    ensures next_word { read (codes "-j golem --kbuild K") ≡ Ok (record (bare job.Golem []) { kbuild = Some (codes "K") }) }
    ensures sign { read (codes "-j=golem --kbuild=K=1") ≡ Ok (record (bare job.Golem []) { kbuild = Some (codes "K=1") }) }
    ensures joined { read (codes "-jgolem --kbuild -") ≡ Ok (record (bare job.Golem []) { kbuild = Some (codes "-") }) }
    ensures hyphens_after_a_sign { read (codes "-j golem --kbuild=--rsf") ≡ Ok (record (bare job.Golem []) { kbuild = Some (codes "--rsf") }) }
    ensures one_sign_is_taken { read (codes "-m==x a.c") ≡ Ok (record (bare job.Dead (codes "a.c" ∷ [])) { model = Some (codes "=x") }) }
    ensures mixed { read (codes "a.c -t4 --kconfig K - --evidence b.c") ≡ Ok (record (bare job.Dead (codes "a.c" ∷ codes "-" ∷ codes "b.c" ∷ [])) {
      kconfig = Some (codes "K");
      workers = 4;
      evidence = true;
    }) }
    ensures after_dashes { read (codes "--rsf r -- -t --rsf --") ≡ Ok (record (bare job.Dead (codes "-t" ∷ codes "--rsf" ∷ codes "--" ∷ [])) { rsf = Some (codes "r") }) }
    ensures no_vars { read (codes "--kconfig K --var= a.c") ≡ Ok (record (bare job.Dead (codes "a.c" ∷ [])) { kconfig = Some (codes "K") }) }
    ensures vars { read (codes "--kconfig K --var A=,_1=x=y a.c") ≡ Ok (record (bare job.Dead (codes "a.c" ∷ [])) {
      kconfig = Some (codes "K");
      vars = record { name = codes "A"; value = [] } ∷ record { name = codes "_1"; value = codes "x=y" } ∷ [];
    }) }
    ensures numbers { read (codes "-j generate --size=10000 --steps 1000000000000 -t=64 --style=min") ≡ Ok (record (bare job.Generate []) {
      size = Some 10000;
      steps = 1000000000000;
      workers = 64;
      style = style.Min;
    }) }
{}

/// Words that are refused as such.
pub fn refused_words()
    ensures unknown { read (codes "--kconfig K -x a.c") ≡ Err usage.Words }
    ensures beginning { read (codes "--kconf K a.c") ≡ Err usage.Words }
    ensures twice { read (codes "--rsf a --rsf=a a.c") ≡ Err usage.Words }
    ensures flag_twice { read (codes "--evidence --rsf a a.c --evidence") ≡ Err usage.Words }
    ensures flag_with_value { read (codes "--rsf a --evidence= a.c") ≡ Err usage.Words }
    ensures without_value { read (codes "a.c --rsf") ≡ Err usage.Words }
    ensures hyphen_word_as_value { read (codes "--rsf -t a.c") ≡ Err usage.Words }
    ensures dashes_as_value { read (codes "a.c --rsf -- b.c") ≡ Err usage.Words }
{}

/// The other usage kinds.
pub fn refused_values()
    ensures no_job { read (codes "-j nosuch") ≡ Err usage.Job }
    ensures empty_job { read (codes "-j= --rsf a a.c") ≡ Err usage.Job }
    ensures past_bounds { read (codes "-t 65") ≡ Err usage.Number }
    ensures leading_zero { read (codes "--rsf a --steps 07 a.c") ≡ Err usage.Number }
    ensures unused_number { read (codes "-j golem --kbuild K --size 0") ≡ Err usage.Number }
    ensures fourteen_digits { read (codes "--rsf a --steps 10000000000000 a.c") ≡ Err usage.Number }
    ensures no_style { read (codes "--rsf a --style max a.c") ≡ Err usage.Style }
    ensures constant { read (codes "--kconfig K --var y=1 a.c") ≡ Err usage.Var }
    ensures name_twice { read (codes "--kconfig K --var A=1,A=1 a.c") ≡ Err usage.Var }
    ensures empty_item { read (codes "--kconfig K --var A=1, a.c") ≡ Err usage.Var }
    ensures no_source { read (codes "--kconfig K") ≡ Err usage.Needs }
    ensures two_grounds { read (codes "--kconfig K --rsf r a.c") ≡ Err usage.Needs }
    ensures unused_ground { read (codes "-j dumpconf --kconfig K --rsf r") ≡ Ok (record (bare job.Dumpconf []) { kconfig = Some (codes "K"); rsf = Some (codes "r") }) }
    ensures no_report { read (codes "-j check --kconfig K a.c") ≡ Err usage.Needs }
    ensures no_words { order_of [] ≡ Err usage.Needs }
    ensures source_twice { read (codes "--kconfig K a.c -- a.c") ≡ Err usage.File }
    ensures empty_source { read (codes "--kconfig K a.c  b.c") ≡ Err usage.File }
    ensures space_first { order_of (codes "--kconfig" ∷ codes " K" ∷ codes " a.c" ∷ []) ≡ Err usage.File }
    ensures unused_file { read (codes "-j golem --kbuild K --report=") ≡ Err usage.File }
{}

/// Of two faults the one that is tested first is answered, in whichever order they stand.
pub fn two_faults()
    ensures words_before_job { read (codes "-j nosuch -x") ≡ Err usage.Words }
    ensures job_after_words { read (codes "-x -j nosuch") ≡ Err usage.Words }
    ensures job_before_number { read (codes "-t 0 -j nosuch") ≡ Err usage.Job }
    ensures number_after_job { read (codes "-j nosuch -t 0") ≡ Err usage.Job }
    ensures number_before_style { read (codes "--style x -t 0") ≡ Err usage.Number }
    ensures style_after_number { read (codes "-t 0 --style x") ≡ Err usage.Number }
    ensures style_before_var { read (codes "--var x --style x") ≡ Err usage.Style }
    ensures var_before_needs { read (codes "a.c --var x") ≡ Err usage.Var }
    ensures needs_before_file { read (codes "a.c a.c") ≡ Err usage.Needs }
    ensures needs_after_file { read (codes "--report= a.c") ≡ Err usage.Needs }
{}

/// What isn't built yet: an option is unknown, and a job is none.
pub fn not_built_yet()
    ensures option { read_today (codes "--rsf r a.c") ≡ Err usage.Words }
    ensures short_option { read_today (codes "-mm a.c") ≡ Err usage.Words }
    ensures job { read_today (codes "-j check --kconfig K a.c") ≡ Err usage.Job }
    ensures built { read_today (codes "--kconfig K a.c") ≡ Ok (record (bare job.Dead (codes "a.c" ∷ [])) { kconfig = Some (codes "K") }) }
{}

/// Lists: empty lines and comments are skipped, and a line that repeats an earlier one is dropped.
pub fn lists_of_wishes()
    ensures white { IsList White (codes "# on\nCONFIG_B\n\nCONFIG_A\nCONFIG_B\n") (On (codes "B") ∷ On (codes "A") ∷ []) }
    ensures black { IsList Black (codes "CONFIG_y") (Off (codes "y") ∷ []) }
{}
