use crate::readings::read_alone;
use std::alloc::Global;
use std::test::Fail;
use test_rows::check_lines;

/// What a symbol that depends on the expression depends on, or the refusal.
fn dependency(alloc: Global, expression: &str) -> Result<String, Fail> {
    let text = format!(in alloc; "config X\ndepends on {expression}")?;
    let read = read_alone(alloc, text.as_str())?;
    let shown = read
        .strip_prefix("X untyped depends ")
        .unwrap_or(read.as_str());
    Ok(String::from_str(alloc, shown)?)
}

const LISTS: &str = r#"
A => A
y => y
"m" => m
12 => n
"word" => n
if => if
A || B && C || D => (or A (and B C) D)
(A || B) || (C || D) => (or A B C D)
A && (B || C) && D => (and A (or B C) D)
!A && !(B && C) => (and !A !(and B C))
!(A&&B||C) => !(or (and A B) C)
"$(b)" => <$(b)>
"#;

#[test]
fn lists_and_operands(rt: HostRuntime) -> Result<(), Fail> {
    check_lines(rt.alloc(), LISTS, dependency)
}

const COMPARISONS: &str = r#"
A = B => A=B
A!=B&&B<=C||C>=D => (or (and A!=B B<=C) C>=D)
D<E && E>F && F=G => (and D<E E>F F=G)
!A = B => !A=B
A != "b" => A!='b'
"y" >= -12 => y>=#-12
A <= 0x1F => A<=#0x1F
n < A => n<A
'm' > 'mm' => m>'mm'
$(b) = "x" => <$(b) = "x">
"y" < "$(b)" => <y < "$(b)">
(A) = B => Kconfig:2: Extra
A = B = C => Kconfig:2: Extra
(A = B) = C => Kconfig:2: Extra
"#;

#[test]
fn comparisons_of_words(rt: HostRuntime) -> Result<(), Fail> {
    check_lines(rt.alloc(), COMPARISONS, dependency)
}

const ENDS: &str = "
A B => Kconfig:2: Extra
A ) => Kconfig:2: Extra
A & => Kconfig:2: Extra
A if B => Kconfig:2: Extra
 => Kconfig:2: Expression
A && => Kconfig:2: Expression
A =  => Kconfig:2: Expression
A = (B) => Kconfig:2: Expression
(A => Kconfig:2: Expression
(A B) => Kconfig:2: Expression
() => Kconfig:2: Expression
! && A => Kconfig:2: Expression
&& A => Kconfig:2: Expression
: A => Kconfig:2: Expression
";

#[test]
fn ends_of_expressions(rt: HostRuntime) -> Result<(), Fail> {
    check_lines(rt.alloc(), ENDS, dependency)
}
