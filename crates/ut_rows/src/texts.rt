//! Small Kconfig texts and a source.

/// Two symbols, of which the second depends on the first.
pub const K1: &str = "config A\n\tbool \"a\"\nconfig B\n\tbool \"b\"\n\tdepends on A\n";

/// A block that asks for the second, and in it one that asks that the first is off.
pub const S1: &str = "#ifdef CONFIG_B\n#ifndef CONFIG_A\n#endif\n#endif\n";

/// Five symbols, each of which depends on the one before it.
pub const CHAIN: &str =
    "config A\n\tbool \"a\"\nconfig B\n\tbool \"b\"\n\tdepends on A\nconfig C\n\tbool \"c\"\n\tdepends on B\nconfig D\n\tbool \"d\"\n\tdepends on C\nconfig E\n\tbool \"e\"\n\tdepends on D\n";

/// The third depends on both others, by one line.
pub const JOINED: &str =
    "config A\n\tbool \"a\"\nconfig B\n\tbool \"b\"\nconfig C\n\tbool \"c\"\n\tdepends on A && B\n";

/// The same by two lines.
pub const TWO_LINES: &str =
    "config A\n\tbool \"a\"\nconfig B\n\tbool \"b\"\nconfig C\n\tbool \"c\"\n\tdepends on A\n\tdepends on B\n";

/// A symbol whose name is the module name of another.
pub const MODULE_NAMED: &str = "config A\n\tbool \"a\"\nconfig A_MODULE\n\tbool \"m\"\n";
