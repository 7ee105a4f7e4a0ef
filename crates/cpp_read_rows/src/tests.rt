use crate::outcomes::{condition_of, outcome, repeated, spans};
use std::test::Fail;
use test_rows::check_lines;

/// C texts, and what they are read as.
const LINES: &str = r#" =>
#if 1\n#endif\n => 1:if 1;2:endif;
#if\\\ndef A\n#endif\n => 1:if D(A);3:endif;
#\\\nifdef A\n#endif => 1:if D(A);3:endif;
/\\\n* #if\n*/#ifdef A\n#endif => 3:if D(A);4:endif;
#/* x */ifdef A\n#endif => 1:if D(A);2:endif;
/* a\nb */ # ifdef A\n#endif\n => 2:if D(A);3:endif;
#ifdef A\n/* #endif\n => unclosed 1
// #if 1\n =>
// a\\\n#if 1\n =>
char *s = "/*";\n#if 1\n#endif\n => 2:if 1;3:endif;
c = '"'; /*\n*/\n#if 0\n#endif => 3:if 0;4:endif;
s = "\\"/*";\n#if 1\n#endif => 2:if 1;3:endif;
s = "/*\n#if 1\n#endif => 2:if 1;3:endif;
a #if 1\n =>
#ifdef A\r\n#endif\r\n => 1:if D(A);2:endif;
#if\\\r\ndef A\r\n#endif => 1:if D(A);3:endif;
#ifdef\n => name 1
#ifdef 9\n => name 1
#ifndef A b c\n#endif x => 1:if !D(A);2:endif;
#if A\n#elif B\n#else\n#endif => 1:if A;2:elif B;3:else;4:endif;
\n#else\n => unbalanced 2
#endif => unbalanced 1
#elif => unbalanced 1
#if 1\n#else\n#else\n => else 3
#if 1\n#else\n#elif\n => else 3
#if 1\n#elifdef A b\n#elifndef B\n#endif => 1:if 1;2:elif D(A);3:elif !D(B);4:endif;
#elifdef A => unbalanced 1
#elifndef => unbalanced 1
#if 1\n#else\n#elifdef A => else 3
#if 1\n#elifdef 9 => name 2
#if 1\n#elifndef => name 2
#if 1\n#elif\n => condition 2
#if 1\n#if 0\n#endif\n => unclosed 1
#if 1\n#if 0\n => unclosed 2
#define\n => name 1
#define A/**/(x)\n#define B/**/0\n => 1:def A ?;2:def B 0;
#define A 0\n#define B 1\n#define C 0x0\n#define D 0u\n => 1:def A 0;2:def B 1;3:def C 0;4:def D 0;
#define E -1\n#define F\n#define G(x) 1\n#undef G\n => 1:def E ?;2:def F ?;3:def G ?;4:undef G;
#define H (1)\n#define I 1 2\n#define J 017UL\n#define K 08\n => 1:def H ?;2:def I ?;3:def J 1;4:def K ?;
#include <a>\n#pragma x\n#\n# 7 "a"\n =>"#;

#[test]
fn lines_and_comments(rt: HostRuntime) -> Result<(), Fail> {
    check_lines(
        rt.alloc(),
        LINES,
        |alloc, text| outcome(alloc, text.as_bytes()),
    )
}

/// C texts, and the places of their conditional directives.
const SPANS: &str = r#" =>
#if 1\n#endif\n => 1 0-6 1-3;2 6-13 7-12;
/* a\n b */ #ifdef A\n#endif => 2 0-20 12-17;3 20-26 21-26;
#if 1\n#el\\\nif 1\n#endif => 1 0-6 1-3;2 6-16 7-13;4 16-22 17-22;
#define A 1\n#if A\n#endif => 2 12-18 13-15;3 18-24 19-24;
#if 1\r\n#endif\r\n => 1 0-7 1-3;2 7-15 8-13;
#if 1 // a\\\nb\n#endif\n => 1 0-14 1-3;3 14-21 15-20;
#if 1\n#endif /* x\n y */ z\n#if 0\n#endif => 1 0-6 1-3;2 6-26 7-12;4 26-32 27-29;5 32-38 33-38;
#if 1 => unclosed 1
#else => unbalanced 1"#;

#[test]
fn spans_of_lines(rt: HostRuntime) -> Result<(), Fail> {
    check_lines(
        rt.alloc(),
        SPANS,
        |alloc, text| spans(alloc, text.as_bytes()),
    )
}

/// Conditions, and what they are read as.
const CONDITIONS: &str = r#" => condition 1
defined A => D(A)
 defined ( A ) => D(A)
!defined(A) => !D(A)
defined => defined
!!A => !!A
A && B || C && D => |(&(A,B,),&(C,D,),)
(A || B) && C => &(|(A,B,),C,)
((A)) => A
(((A) && B)) => &(A,B,)
((A) || (B)) => |(A,B,)
((((A)) + (B))) => [( ( A ) ) + ( B )]
(()) => condition 1
!!!((A)) => !!!A
!!!A == 1 => [! ! ! A == 1]
A > 1 => [A > 1]
A==1&&B => &([A == 1],B,)
! A == 1 => [! A == 1]
A ? B : C => [A ? B : C]
(A ? B : C) && D => &([A ? B : C],D,)
F(A, B) => [F ( A , B )]
A , B || C => [A , B || C]
F(A || B) || C => |([F ( A || B )],C,)
IS_ENABLED(A) => |(A,A_MODULE,)
IS_BUILTIN(A) && IS_MODULE(B) => &(A,B_MODULE,)
!IS_ENABLED(A) => !|(A,A_MODULE,)
IS_ENABLED(IS_MODULE(A)) => [IS_ENABLED ( IS_MODULE ( A ) )]
!'a' => !['a']
!"s" => [! "s"]
0x10 => 1
00L => 0
08 => [08]
1.e+5 => [1.e+5]
A<<1 => [A << 1]
() => condition 1
A || => condition 1
&& A => condition 1
(A => condition 1
A) => condition 1
F() => [F ( )]
! => [!]
!() => condition 1
340282366920938463463374607431768211455 => 1
340282366920938463463374607431768211456 => condition 1
0xffffffffffffffffffffffffffffffff => 1
A == 0x100000000000000000000000000000000 => condition 1
A /* b */ // c => A
é => [\\xc3 \\xa9]"#;

#[test]
fn conditions(rt: HostRuntime) -> Result<(), Fail> {
    check_lines(rt.alloc(), CONDITIONS, condition_of)
}

/// Texts at the limits: a front, a part, how often the part stands there, and an end.
const LIMITS: &str = r#"#if |!|201|A\n => condition 1
#if |!|200|A\n => unclosed 1
#if |(|201|A => condition 1
#if 0\n|#elif 0\n|1023| => unclosed 1
#if 0\n|#elif 0\n|1024| => many 1025
|#if 0\n#endif\n|65535|#else => unbalanced 131071
|#if 0\n#endif\n|65536| => many 131071
|#if 1\n|250| => unclosed 250
|#if 1\n|251| => depth 251"#;

#[test]
fn limits(rt: HostRuntime) -> Result<(), Fail> {
    check_lines(rt.alloc(), LIMITS, |alloc, row| {
        outcome(alloc, repeated(alloc, row)?.as_bytes())
    })
}
