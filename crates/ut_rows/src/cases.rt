//! Small cases with the reports that the definitions of dead, undead, live and their classes give.

use crate::runs::report;
use crate::texts::{CHAIN, JOINED, K1, MODULE_NAMED, TWO_LINES};
use std::alloc::Global;
use std::test::Fail;
use test_texts::{check_blocks, check_lines};

/// Two symbols, of which the second depends on the first.
const K1_CASES: &str = "\
#ifndef CONFIG_A
#ifdef CONFIG_B
#endif
#endif
=>
a.c.B1.live
a.c.B2.kconfig.globally.dead
blocks 2 dead 1 undead 0 live 1 undecided 0
--
#ifndef CONFIG_A
#ifndef CONFIG_B
#endif
#endif
=>
a.c.B1.live
a.c.B2.kconfig.globally.undead
blocks 2 dead 0 undead 1 live 1 undecided 0
--
#ifdef CONFIG_TYPO
#ifdef CONFIG_A
#endif
#endif
=>
a.c.B1.missing.globally.dead
a.c.B2.missing.globally.dead
blocks 2 dead 2 undead 0 live 0 undecided 0
--
#ifdef X
#ifndef X
#ifdef Y
#endif
#endif
#endif
=>
a.c.B1.live
a.c.B2.code.globally.dead
a.c.B3.code.globally.dead
blocks 3 dead 2 undead 0 live 1 undecided 0
--
#ifdef CONFIG_A
#ifdef CONFIG_A
#endif
#endif
=>
a.c.B1.live
a.c.B2.code.globally.undead
blocks 2 dead 0 undead 1 live 1 undecided 0
--
#ifdef CONFIG_A
#endif
#ifndef CONFIG_A
#endif
#ifdef CONFIG_B
#endif
=>
a.c.B1.live
a.c.B2.live
a.c.B3.live
blocks 3 dead 0 undead 0 live 3 undecided 0
--
#ifdef CONFIG_A
#ifdef CONFIG_TYPO
#endif
#endif
=>
a.c.B1.live
a.c.B2.missing.globally.dead
blocks 2 dead 1 undead 0 live 1 undecided 0
--
#ifdef CONFIG_A
#ifndef CONFIG_TYPO
#endif
#endif
=>
a.c.B1.live
a.c.B2.missing.globally.undead
blocks 2 dead 0 undead 1 live 1 undecided 0
--
#ifdef FOO
#ifndef BAR
#endif
#endif
=>
a.c.B1.live
a.c.B2.live
blocks 2 dead 0 undead 0 live 2 undecided 0
--
#ifndef FOO
#ifdef FOO
#endif
#endif
=>
a.c.B1.live
a.c.B2.code.globally.dead
blocks 2 dead 1 undead 0 live 1 undecided 0
--
#ifdef CONFIG_
#endif
=>
a.c.B1.missing.globally.dead
blocks 1 dead 1 undead 0 live 0 undecided 0
--
#ifdef CONFIG
#endif
=>
a.c.B1.live
blocks 1 dead 0 undead 0 live 1 undecided 0
--
#ifdef CONFIG_TYPO_MODULE
#endif
=>
a.c.B1.missing.globally.dead
blocks 1 dead 1 undead 0 live 0 undecided 0
--
#ifndef CONFIG_A_MODULE
#endif
=>
a.c.B1.kconfig.globally.undead
blocks 1 dead 0 undead 1 live 0 undecided 0
--
#ifdef CONFIG_A
#ifdef CONFIG_B
#ifndef CONFIG_A
#endif
#endif
#endif
=>
a.c.B1.live
a.c.B2.live
a.c.B3.code.globally.dead
blocks 3 dead 1 undead 0 live 2 undecided 0
--
#ifdef CONFIG_B
#ifdef CONFIG_A
#ifdef CONFIG_B
#endif
#endif
#endif
=>
a.c.B1.live
a.c.B2.kconfig.globally.undead
a.c.B3.code.globally.undead
blocks 3 dead 0 undead 2 live 1 undecided 0
--
int x;
#ifdef CONFIG_A
int y;
#endif
int z;
=>
a.c.B1.live
blocks 1 dead 0 undead 0 live 1 undecided 0
--
#ifdef A
#ifdef CONFIG_A
#endif
#endif
=>
a.c.B1.live
a.c.B2.live
blocks 2 dead 0 undead 0 live 2 undecided 0
--
#ifndef CONFIG_TYPO
#ifdef CONFIG_TYPO
#endif
#endif
=>
a.c.B1.missing.globally.undead
a.c.B2.code.globally.dead
blocks 2 dead 1 undead 1 live 0 undecided 0
--
#ifdef CONFIG_B
#endif
#ifdef CONFIG_B
#ifndef CONFIG_A
#ifdef X
#endif
#endif
#endif
=>
a.c.B1.live
a.c.B2.live
a.c.B3.kconfig.globally.dead
a.c.B4.kconfig.globally.dead
blocks 4 dead 2 undead 0 live 2 undecided 0
--
#ifdef CONFIG_B
#ifndef CONFIG_A
#endif
#endif
=>
a.c.B1.live
a.c.B2.kconfig.globally.dead
blocks 2 dead 1 undead 0 live 1 undecided 0
--
#ifdef CONFIG_A
#ifndef CONFIG_A
#endif
#endif
=>
a.c.B1.live
a.c.B2.code.globally.dead
blocks 2 dead 1 undead 0 live 1 undecided 0
--
#ifdef CONFIG_B
#ifdef CONFIG_A
#endif
#endif
=>
a.c.B1.live
a.c.B2.kconfig.globally.undead
blocks 2 dead 0 undead 1 live 1 undecided 0
--
#ifdef CONFIG_TYPO
#endif
#ifndef CONFIG_TYPO
#endif
=>
a.c.B1.missing.globally.dead
a.c.B2.missing.globally.undead
blocks 2 dead 1 undead 1 live 0 undecided 0
--
#ifdef CONFIG_A_MODULE
#endif
#ifdef A
#endif
=>
a.c.B1.kconfig.globally.dead
a.c.B2.live
blocks 2 dead 1 undead 0 live 1 undecided 0
--
=>
blocks 0 dead 0 undead 0 live 0 undecided 0
--
#if 1
#endif
=>
a.c.refused notyet 1
blocks 0 dead 0 undead 0 live 0 undecided 0
";

#[test]
fn two_symbols(rt: HostRuntime) -> Result<(), Fail> {
    let answer = |alloc: Global, source: &str| report(&rt, alloc, K1, source);
    check_blocks(rt.alloc(), K1_CASES, answer)
}

/// Five symbols, each of which depends on the one before it.
const CHAIN_CASES: &str = "\
#ifdef CONFIG_E
#ifndef CONFIG_A
#endif
#endif
=>
a.c.B1.live
a.c.B2.kconfig.globally.dead
blocks 2 dead 1 undead 0 live 1 undecided 0
--
#ifdef CONFIG_E
#ifdef CONFIG_A
#endif
#endif
=>
a.c.B1.live
a.c.B2.kconfig.globally.undead
blocks 2 dead 0 undead 1 live 1 undecided 0
--
#ifdef CONFIG_A
#ifdef CONFIG_E
#endif
#endif
=>
a.c.B1.live
a.c.B2.live
blocks 2 dead 0 undead 0 live 2 undecided 0
--
#ifndef CONFIG_A
#ifdef CONFIG_E
#endif
#endif
=>
a.c.B1.live
a.c.B2.kconfig.globally.dead
blocks 2 dead 1 undead 0 live 1 undecided 0
--
#ifdef CONFIG_C
#ifndef CONFIG_D
#ifdef CONFIG_E
#endif
#endif
#endif
=>
a.c.B1.live
a.c.B2.live
a.c.B3.kconfig.globally.dead
blocks 3 dead 1 undead 0 live 2 undecided 0
--
#ifdef CONFIG_B
#ifdef CONFIG_A
#endif
#endif
#ifdef CONFIG_E
#ifdef CONFIG_D
#endif
#endif
=>
a.c.B1.live
a.c.B2.kconfig.globally.undead
a.c.B3.live
a.c.B4.kconfig.globally.undead
blocks 4 dead 0 undead 2 live 2 undecided 0
";

#[test]
fn a_chain_of_five(rt: HostRuntime) -> Result<(), Fail> {
    let answer = |alloc: Global, source: &str| report(&rt, alloc, CHAIN, source);
    check_blocks(rt.alloc(), CHAIN_CASES, answer)
}

/// A symbol that depends on two by one line.
const JOINED_CASES: &str = "\
#ifdef CONFIG_C
#ifndef CONFIG_B
#endif
#endif
=>
a.c.B1.live
a.c.B2.kconfig.globally.dead
blocks 2 dead 1 undead 0 live 1 undecided 0
--
#ifdef CONFIG_A
#ifdef CONFIG_B
#ifdef CONFIG_C
#endif
#endif
#endif
=>
a.c.B1.live
a.c.B2.live
a.c.B3.live
blocks 3 dead 0 undead 0 live 3 undecided 0
--
#ifdef CONFIG_B
#ifndef CONFIG_A
#endif
#endif
=>
a.c.B1.live
a.c.B2.live
blocks 2 dead 0 undead 0 live 2 undecided 0
";

#[test]
fn two_names_in_one_line(rt: HostRuntime) -> Result<(), Fail> {
    let answer = |alloc: Global, source: &str| report(&rt, alloc, JOINED, source);
    check_blocks(rt.alloc(), JOINED_CASES, answer)
}

/// A symbol that depends on two by two lines.
const TWO_LINES_CASES: &str = "\
#ifdef CONFIG_C
#ifdef CONFIG_B
#endif
#endif
=>
a.c.B1.live
a.c.B2.kconfig.globally.undead
blocks 2 dead 0 undead 1 live 1 undecided 0
";

#[test]
fn two_lines(rt: HostRuntime) -> Result<(), Fail> {
    let answer = |alloc: Global, source: &str| report(&rt, alloc, TWO_LINES, source);
    check_blocks(rt.alloc(), TWO_LINES_CASES, answer)
}

/// A symbol whose name is the module name of another.
const MODULE_NAMED_CASES: &str = "\
#ifdef CONFIG_A_MODULE
#endif
=>
a.c.B1.live
blocks 1 dead 0 undead 0 live 1 undecided 0
";

#[test]
fn a_name_of_a_module(rt: HostRuntime) -> Result<(), Fail> {
    let answer = |alloc: Global, source: &str| report(&rt, alloc, MODULE_NAMED, source);
    check_blocks(rt.alloc(), MODULE_NAMED_CASES, answer)
}

/// A Kconfig text, `|` and a source: an empty tree, other bytes, other line ends, and no newline at the end.
const TEXTS: &str = r##"
 | #ifdef CONFIG_A\n#endif\n => a.c.B1.missing.globally.dead\nblocks 1 dead 1 undead 0 live 0 undecided 0\n
config A\n\tbool "a"\nconfig B\n\tbool "b"\n\tdepends on A\n | int a;\0\n => blocks 0 dead 0 undead 0 live 0 undecided 0\n
config A\n\tbool "a"\nconfig B\n\tbool "b"\n\tdepends on A\n | #ifdef A\0\n#endif\n => a.c.refused notyet 1\nblocks 0 dead 0 undead 0 live 0 undecided 0\n
config A\r\n\tbool "a"\r\nconfig B\r\n\tbool "b"\r\n\tdepends on A\r\n | #ifdef CONFIG_B\r\n#ifndef CONFIG_A\r\n#endif\r\n#endif\r\n => a.c.B1.live\na.c.B2.kconfig.globally.dead\nblocks 2 dead 1 undead 0 live 1 undecided 0\n
config A\n\tbool "a"\nconfig B\n\tbool "b"\n\tdepends on A | #ifdef CONFIG_B\n#ifndef CONFIG_A\n#endif\n#endif => a.c.B1.live\na.c.B2.kconfig.globally.dead\nblocks 2 dead 1 undead 0 live 1 undecided 0\n
"##;

#[test]
fn texts_with_other_line_ends(rt: HostRuntime) -> Result<(), Fail> {
    let answer = |alloc: Global, row: &str| {
        let (kconfig, source) = row.split_once(" | ").ok_or("two texts")?;
        report(&rt, alloc, kconfig, source)
    };
    check_lines(rt.alloc(), TEXTS, answer)
}
