use crate::readings::{read_alone, read_with, vars_of};
use std::alloc::Global;
use std::test::Fail;
use test_rows::check_lines;

const WORDS: &str = r#"
 \t \n# it's\n =>
config\tA # x => A untyped depends y
config A\nbool "a # 'b'" if B#C\n => A bool depends y prompt B
config A\ndefault "a # 'b'"if B => A untyped depends y default n 'a # 'b'' if B
config A\ndefault 'a\\'b\\\\' => A untyped depends y default n 'a'b\\' if y
config A\ndefault B-1.c/d_ => A untyped depends y default n 'B-1.c/d_' if y
config A\ndefault a"b" => Kconfig:2: Extra
config A\ndefault B : C => Kconfig:2: Extra
config A\ndefault B, C => Kconfig:2: Extra
config A\ndefault B \\C => Kconfig:2: Extra
config A\ndefault B $C => Kconfig:2: Extra
config A\nprompt "a\\ => Kconfig:2: Quote
config A\nprompt "a $(b" c => Kconfig:2: Quote
"#;

#[test]
fn words_and_quotes(rt: HostRuntime) -> Result<(), Fail> {
    check_lines(rt.alloc(), WORDS, read_alone)
}

const NO_EFFECT: &str = r#"
config A\nquote := "\n  B$(x y) += "\nC= $(\nD =\n\t$(warning "\nbool => A bool depends y
A : = B => Kconfig:1: Word
A$(b := " => Kconfig:1: Bracket
= A => Kconfig:1: Word
A ?= B => Kconfig:1: Word
"A" = "B" => Kconfig:1: Word
"#;

#[test]
fn lines_without_effect(rt: HostRuntime) -> Result<(), Fail> {
    check_lines(rt.alloc(), NO_EFFECT, read_alone)
}

const CONTINUED: &str = r"
config A\r\n\thelp\n\n\t  a\\\n  \t  b\n \t \n\t c => Kconfig:7: Word
config\\\r\n B \\\n\nlast\\ => Kconfig:4: Word
config\\\n A\nbool\\ => A bool depends y
";

#[test]
fn lines_that_go_on(rt: HostRuntime) -> Result<(), Fail> {
    check_lines(rt.alloc(), CONTINUED, read_alone)
}

const MACRO_CALLS: &str = r##"
source "a/$(ARCH)/K" => a/x86/K: Missing
source a/$(ARCH)/$(NO) => Kconfig:1: Macro
config A\ndepends on $(b "#(\\)) => A untyped depends <$(b "#(\\))>
config A\ndepends on $(b "#(\\)) )x => Kconfig:2: Extra
config A\ndepends on $(sh,$(ARCH)) && $( ARCH ) => A untyped depends (and <$(sh,$(ARCH))> <$( ARCH )>)
config A\ndefault $(Q)b if "\\$(ARCH)" = B => A untyped depends y default n '"$(ARCH)" #b' if '$(ARCH)'=B
config A\ndefault "$(E)" if $(ARCH) => A untyped depends y default n '' if x86
"##;

#[test]
fn quotes_and_macro_calls(rt: HostRuntime) -> Result<(), Fail> {
    let pairs = [("ARCH", "x86"), ("Q", "\"$(ARCH)\" #"), ("E", "")];
    let vars = vars_of(rt.alloc(), pairs.as_slice())?;
    let answer = |alloc: Global, text: &str| read_with(alloc, text, vars.as_slice());
    check_lines(rt.alloc(), MACRO_CALLS, answer)
}
