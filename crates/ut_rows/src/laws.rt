ghost use Rattle.std.specs.Prelude.{◌≡◌, Ok, codes};
ghost use Rattle.undertaker.specs.FirstKconfig.Form.{first_tree_of};
ghost use Rattle.undertaker.specs.FirstSource.Form.{first_directives_of};
ghost use Rattle.worked_rows.specs.Texts.{two_symbols, contrary, dependent, repeated, implied};

/// Law: the Kconfig text of the rows declares A, and B that depends on A; and the sources of the rows are read
/// as the directives that stand for them.
pub fn texts_are_read()
    ensures tree { first_tree_of (codes "config A\n\tbool \"a\"\nconfig B\n\tbool \"b\"\n\tdepends on A\n") ≡ Ok two_symbols }
    ensures contrary { first_directives_of (codes "#ifdef CONFIG_A\n#ifndef CONFIG_A\n#endif\n#endif\n") ≡ Ok contrary }
    ensures dependent { first_directives_of (codes "#ifdef CONFIG_B\n#ifndef CONFIG_A\n#endif\n#endif\n") ≡ Ok dependent }
    ensures repeated { first_directives_of (codes "#ifdef CONFIG_A\n#ifdef CONFIG_A\n#endif\n#endif\n") ≡ Ok repeated }
    ensures implied { first_directives_of (codes "#ifdef CONFIG_B\n#ifdef CONFIG_A\n#endif\n#endif\n") ≡ Ok implied }
{}
