use crate::blocks::blocks_of;
use crate::running::on;
use crate::runs::on_in_run;
use cpp_blocks::Blocks;
use std::alloc::{AllocError, Global};
use std::fmt::Write;
use std::test::Fail;
use test_rows::check_lines;

/// The blocks of a row that are on.
fn on_in(alloc: Global, row: &str) -> Result<String, Fail> {
    let (words, text) = row.split_once("| ").ok_or("words and a text")?;
    on(alloc, &blocks_of(alloc, text)?, words)
}

/// Chosen are `d0` the start of name 0, `t0` that it is true there, `p0` piece 0, and `l1` line 1.
const ROWS: &str = "
| #ifdef A; #endif =>
d0 | #ifdef A; #endif => 1
| #ifndef A; #endif => 1
d0 | #if A; #endif =>
d0 t0 | #if A; #endif => 1
d1 t1 | #if A || B; #endif => 1
d0 t0 | #if A || B; #endif => 1
d0 d1 | #if A || B; #endif =>
| #if 0; #else; #endif => 2
d0 | #ifdef A; #else; #endif => 1
| #ifdef A; #else; #endif => 2
d1 d2 | #ifdef A; #elif defined B; #elif defined C; #else; #endif => 2
d0 d1 d2 | #ifdef A; #elif defined B; #elif defined C; #else; #endif => 1
d2 | #ifdef A; #elif defined B; #elif defined C; #else; #endif => 3
| #ifdef A; #elif defined B; #elif defined C; #else; #endif => 4
d1 | #ifdef A; #ifdef B; #endif; #endif =>
d0 d1 | #ifdef A; #ifdef B; #endif; #endif => 1 2
| #ifdef A; #else; #ifdef B; #else; #endif; #endif => 2 4
| #define A 0; #ifdef A; #endif => 1
d0 t0 | #define A 0; #if A; #endif =>
| #define A 1; #if A; #endif => 1
| #define A x; #if A; #endif =>
l1 | #define A x; #if A; #endif => 1
l1 | #define A x; #define A x; #if A; #endif =>
d0 t0 | #undef A; #ifdef A; #endif =>
d0 | #ifdef A; #endif; #undef A; #ifdef A; #endif; #define A 1; #ifdef A; #endif => 1 3
| #ifdef A; #define B 1; #endif; #ifdef B; #endif =>
d0 | #ifdef A; #define B 1; #endif; #ifdef B; #endif => 1 2
d1 | #ifdef A; #undef B; #endif; #ifdef B; #endif => 2
d0 d1 | #ifdef A; #undef B; #endif; #ifdef B; #endif => 1
d0 d1 | #ifdef A; #undef F; #endif; #if defined F && defined A; #endif => 1
d0 | #ifdef A; #ifndef A; #endif; #endif => 1
| #ifndef G; #define G x; #ifdef G; #endif; #endif => 1 2
| #ifndef G; #define G x; #endif; #ifndef G; #endif => 1
p0 | #if p > 0; #endif; #if p > 0; #endif => 1 2
p1 | #if p > 0; #endif; #if q > 0; #endif => 2
p1 | #if f(1); #endif; #define f 1; #if f(1); #endif => 2
p0 | #if f(1); #endif; #define g 1; #if f(1); #endif => 1 2
p0 | #if é + 1; #endif; #define xc3 1; #if é + 1; #endif => 1 2
| #ifdef A; #else; #endif; #ifdef B; #define C 1; #elif defined C; #endif => 2
";

#[test]
fn blocks_are_on_as_in_the_run(rt: HostRuntime) -> Result<(), Fail> {
    check_lines(rt.alloc(), ROWS, on_in)
}

/// The blocks of a row that are on in the run itself.
fn run_in(alloc: Global, row: &str) -> Result<String, Fail> {
    let (words, text) = row.split_once("| ").ok_or("words and a text")?;
    on_in_run(alloc, &blocks_of(alloc, text)?, words)
}

#[test]
fn the_run_turns_the_same_blocks_on(rt: HostRuntime) -> Result<(), Fail> {
    check_lines(rt.alloc(), ROWS, run_in)
}

/// A comment before a word, a comment's start in a string, and a word over two lines. The names are
/// CONFIG_A and CONFIG_Z.
const TEXT: &str =
    "#/* x */ifdef CONFIG_A\nchar *s = \"/*\";\n#endif\n#if defi\\\nned(CONFIG_Z)\n#endif\n";

const TEXT_ROWS: &str = "
 =>
d0 t0 => 1
d1 t1 => 2
d0 t0 d1 t1 => 1 2
";

#[test]
fn blocks_of_a_text(rt: HostRuntime) -> Result<(), Fail> {
    let blocks = blocks_of(rt.alloc(), TEXT)?;
    let answer = |alloc: Global, words: &str| on(alloc, &blocks, words);
    check_lines(rt.alloc(), TEXT_ROWS, answer)
}

/// A driver as users have it. The names are DRV_C, CONFIG_E1000, CONFIG_E1000_MODULE,
/// CONFIG_CRC_LIB_MODULE, CONFIG_CRC_LIB, CONFIG_DEBUG and CONFIG_HZ; the piece is `CONFIG_HZ > 100`.
const DRIVER: &str = "\
#ifndef DRV_C
#define DRV_C
#include <linux/module.h>
#if IS_ENABLED(CONFIG_E1000)
#ifdef CONFIG_CRC_LIB_MODULE
#endif
#if !defined(CONFIG_CRC_LIB) && !defined(CONFIG_CRC_LIB_MODULE)
#endif
#endif
#if CONFIG_HZ > 100
#endif
#ifdef CONFIG_DEBUG
#else
#endif
#ifdef CONFIG_HZ
#endif
#endif
";

const DRIVER_ROWS: &str = "
 => 1 7
d0 =>
d1 t1 => 1 2 4 7
d2 t2 d3 t3 => 1 2 3 7
d1 t1 d4 t4 => 1 2 7
d5 t5 d6 t6 p0 => 1 5 6 8
";

#[test]
fn blocks_of_a_driver(rt: HostRuntime) -> Result<(), Fail> {
    let blocks = blocks_of(rt.alloc(), DRIVER)?;
    let answer = |alloc: Global, words: &str| on(alloc, &blocks, words);
    check_lines(rt.alloc(), DRIVER_ROWS, answer)?;
    let run = |alloc: Global, words: &str| on_in_run(alloc, &blocks, words);
    check_lines(rt.alloc(), DRIVER_ROWS, run)
}

const SOURCE: &str = "\
#ifdef CONFIG_B
int b;
#endif
#ifndef CONFIG_B
int nb;
#endif
#ifdef CONFIG_A
int a;
#endif
";

const LINES: &str = "
2 => 1
3 => 0
5 => 2
8 => 3
99 => 0
0 => 0
1 => 1
";

/// The block of a line.
fn block_at(alloc: Global, blocks: &Blocks, line: &str) -> Result<String, Fail> {
    let block = blocks.block_at_line(line.parse::<u32>()?);
    Ok(format!(in alloc; "{block}")?)
}

#[test]
fn lines_of_blocks(rt: HostRuntime) -> Result<(), Fail> {
    let blocks = blocks_of(rt.alloc(), SOURCE)?;
    let answer = |alloc: Global, line: &str| block_at(alloc, &blocks, line);
    check_lines(rt.alloc(), LINES, answer)
}

/// Each block with its parent and the directive that opens it.
fn push_blocks(text: &mut String, blocks: &Blocks) -> Result<(), AllocError> {
    for block in 1..=blocks.count() {
        let (parent, opener) = (blocks.parent(block), blocks.opened_by(block));
        write!(text, "{parent} {opener};")?;
    }
    Ok(())
}

/// Each name.
fn push_names(text: &mut String, blocks: &Blocks) -> Result<(), AllocError> {
    for name in blocks.macro_names() {
        text.push_str(name.text())?;
        text.push_str(";")?;
    }
    Ok(())
}

/// The blocks and the names of a text, and how many directives there are.
fn chains_of(alloc: Global, text: &str) -> Result<String, Fail> {
    let blocks = blocks_of(alloc, text)?;
    let mut out = String::new(alloc);
    push_blocks(&mut out, &blocks)?;
    push_names(&mut out, &blocks)?;
    let count = blocks.directives().len();
    write!(out, "{count}")?;
    Ok(out)
}

const CHAINS: &str = "
#ifdef X; #if A || A_MODULE; #elif defined X; #endif; #else; #endif => 0 0;1 1;1 2;0 4;X;A;A_MODULE;6
";

#[test]
fn parents_and_opening_directives(rt: HostRuntime) -> Result<(), Fail> {
    check_lines(rt.alloc(), CHAINS, chains_of)
}

/// Each piece with its turn.
fn pieces_of(alloc: Global, text: &str) -> Result<String, Fail> {
    let blocks = blocks_of(alloc, text)?;
    let mut out = String::new(alloc);
    for piece in blocks.pieces() {
        write!(out, "{} {};", piece.text.text(), piece.turn)?;
    }
    Ok(out)
}

const PIECES: &str = r"
#if foo(1); #endif; #define foo 1; #if foo(1); #endif => foo ( 1 ) 0;foo ( 1 ) 1;
-- names in a character and a number are none
#if foo + foo2 + '\\'foo2' + 0foo; #endif; #undef foo2; #if foo + foo2 + '\\'foo2' + 0foo; #endif => foo + foo2 + '\\'foo2' + 0foo 0;foo + foo2 + '\\'foo2' + 0foo 1;
";

#[test]
fn turns_of_pieces(rt: HostRuntime) -> Result<(), Fail> {
    check_lines(rt.alloc(), PIECES, pieces_of)
}
