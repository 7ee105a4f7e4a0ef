use crate::readings::read_alone;
use std::test::Fail;
use test_rows::check_lines;

const QUOTES: &str = r#"
"a => Kconfig:1: Quote
boll "a => Kconfig:1: Quote
bool 'a" => Kconfig:1: Quote
config A\nimply "a => Kconfig:2: Quote
config A\ndefault && "a => Kconfig:2: Quote
config A\nselect 5 "a => Kconfig:2: Quote
config A B "a => Kconfig:1: Quote
source "$(x)" "a => Kconfig:1: Quote
endif "a => Kconfig:1: Quote
choice\nmenu "a => Kconfig:2: Quote
config A\ndefault "a $(x => Kconfig:2: Quote
config A\ndefault $(x "a => Kconfig:2: Bracket
config A\ndefault "a" $(x " => Kconfig:2: Bracket
config A\ndefault $(x) "a => Kconfig:2: Quote
"#;

#[test]
fn quote_and_bracket_come_first(rt: HostRuntime) -> Result<(), Fail> {
    check_lines(rt.alloc(), QUOTES, read_alone)
}

const BRACKETS: &str = r"
boll $(x => Kconfig:1: Bracket
bool $(x => Kconfig:1: Bracket
config A\nimply $(x => Kconfig:2: Bracket
config A\ndefault && $(x( => Kconfig:2: Bracket
config A\nselect 5 $(x => Kconfig:2: Bracket
config A B a$(x => Kconfig:1: Bracket
source $(x) $(y => Kconfig:1: Bracket
endif $($(x) => Kconfig:1: Bracket
choice\nmenu $(x => Kconfig:2: Bracket
";

#[test]
fn bracket_comes_before_the_words(rt: HostRuntime) -> Result<(), Fail> {
    check_lines(rt.alloc(), BRACKETS, read_alone)
}

const FIRST_WORDS: &str = r#"
config A\n\tboll "a" => Kconfig:2: Word
"config" A => Kconfig:1: Word
( A => Kconfig:1: Word
config A\ndepends A on => Kconfig:2: Word
config A\nvisible A => Kconfig:2: Word
depends on && => Kconfig:1: Attribute
imply 5 ( => Kconfig:1: Attribute
choice\nselect 5 x => Kconfig:2: Attribute
config A\noptional x => Kconfig:2: Attribute
config A\nvisible if ( => Kconfig:2: Attribute
config A\nimply 5 ( => Kconfig:2: Named
menu m\nvisible if && x => Kconfig:2: Expression
choice\ntristate ( => Kconfig:2: Expression
"#;

#[test]
fn first_words_and_their_entry(rt: HostRuntime) -> Result<(), Fail> {
    check_lines(rt.alloc(), FIRST_WORDS, read_alone)
}

const ATTRIBUTES: &str = r"
mainmenu x\nbool => Kconfig:2: Attribute
config A\nif B\nbool => Kconfig:3: Attribute
config A\nif B\nendif\nbool => Kconfig:4: Attribute
menu m\nendmenu\ndepends on A => Kconfig:3: Attribute
choice\nendchoice\noptional => Kconfig:3: Attribute
config A\n\n# c\nB = C\n$(x)\nbool => A bool depends y
";

#[test]
fn attributes_after_no_entry(rt: HostRuntime) -> Result<(), Fail> {
    check_lines(rt.alloc(), ATTRIBUTES, read_alone)
}

const EXPRESSIONS: &str = r#"
menu => Kconfig:1: Expression
menu ( x => Kconfig:1: Expression
mainmenu & => Kconfig:1: Expression
if => Kconfig:1: Expression
config A\nbool ( => Kconfig:2: Expression
config A\nbool if => Kconfig:2: Expression
config A\nprompt => Kconfig:2: Expression
config A\nprompt "a" if ( x => Kconfig:2: Expression
config A\ndefault => Kconfig:2: Expression
config A\ndefault A && => Kconfig:2: Expression
config A\ndef_bool => Kconfig:2: Expression
config A\nrange 1 => Kconfig:2: Expression
config A\nrange 1 2 if => Kconfig:2: Expression
"#;

#[test]
fn expressions_and_texts_that_are_missing(rt: HostRuntime) -> Result<(), Fail> {
    check_lines(rt.alloc(), EXPRESSIONS, read_alone)
}

const PATHS: &str = r#"
source => Kconfig:1: Expression
source "" => Kconfig:1: Expression
source "" $(x) => Kconfig:1: Expression
source ( $(x) => Kconfig:1: Expression
source "a$(B)" x => Kconfig:1: Extra
source x "a$(B)" => Kconfig:1: Extra
source "arch/$(SRCARCH)/Kconfig" => Kconfig:1: Macro
"#;

#[test]
fn paths_that_are_missing(rt: HostRuntime) -> Result<(), Fail> {
    check_lines(rt.alloc(), PATHS, read_alone)
}

const NAMES: &str = r#"
config => Kconfig:1: Named
config y => Kconfig:1: Named
config "A" => Kconfig:1: Named
config A-B => Kconfig:1: Named
config 0x1F => Kconfig:1: Named
config 5 x => Kconfig:1: Named
config A 5 => Kconfig:1: Extra
choice 5 x => Kconfig:1: Named
choice C 5 => Kconfig:1: Extra
config A\nselect => Kconfig:2: Named
config A\nselect m => Kconfig:2: Named
config A\nselect 5 if ( => Kconfig:2: Named
config A\nselect B if ( 5 => Kconfig:2: Expression
choice\ndefault "B" ( => Kconfig:2: Named
"#;

#[test]
fn names_that_are_missing(rt: HostRuntime) -> Result<(), Fail> {
    check_lines(rt.alloc(), NAMES, read_alone)
}

const EXTRA_WORDS: &str = r"
menu a b => Kconfig:1: Extra
menu x ( => Kconfig:1: Extra
endif x => Kconfig:1: Extra
config A\ndefault && B C => Kconfig:2: Expression
config A\ndefault A B && => Kconfig:2: Extra
config A\ndefault A if B C => Kconfig:2: Extra
config A\ndefault A if && B C => Kconfig:2: Expression
config A\nprompt 'a' x if ( => Kconfig:2: Extra
config A\ndepends on A if ( => Kconfig:2: Extra
config A\nselect B C => Kconfig:2: Extra
config A\nrange 1 2 3 => Kconfig:2: Extra
config A\nhelp me => Kconfig:2: Extra
config A\nmodules x => Kconfig:2: Extra
";

#[test]
fn words_that_are_left_over(rt: HostRuntime) -> Result<(), Fail> {
    check_lines(rt.alloc(), EXTRA_WORDS, read_alone)
}

const END_WORDS: &str = r"
if A\nendmenu => Kconfig:2: End
if A\nendmenu if => Kconfig:2: Extra
config A\n\tbool\nendif => Kconfig:3: End
choice\nmenu x => Kconfig:2: Choice
choice\nmenu => Kconfig:2: Expression
choice\nmenu a b => Kconfig:2: Extra
choice\nchoice 5 => Kconfig:2: Named
choice\nmainmenu x => Kconfig:2: Choice
choice\nif A\nchoice => Kconfig:3: Choice
choice C\nendchoice\nchoice C => Kconfig:3: Choice
choice C\nendchoice\nchoice C x => Kconfig:3: Extra
choice\nendchoice\nchoice\nif A\nendchoice => Kconfig:5: End
";

#[test]
fn ends_and_choices_come_after_the_words(rt: HostRuntime) -> Result<(), Fail> {
    check_lines(rt.alloc(), END_WORDS, read_alone)
}

const OPENERS: &str = r#"
\nmenu a\nif B\nchoice\n\n => Kconfig:2: Unclosed
if A\nendif\nif B => Kconfig:3: Unclosed
menu m\nboll => Kconfig:2: Word
menu m\nif A\nendmenu => Kconfig:3: End
config A\nboll\nbool "a => Kconfig:2: Word
"#;

#[test]
fn openers_that_are_left(rt: HostRuntime) -> Result<(), Fail> {
    check_lines(rt.alloc(), OPENERS, read_alone)
}

const MEMBERS: &str = r"
choice\nconfig A\nendchoice\nchoice\nconfig A => Kconfig:5: Choice
choice\nconfig A\nbool\nendchoice\nchoice\nconfig A\nint => Kconfig:6: Choice
config A\nint\nchoice\nconfig A\nendchoice\nchoice\nconfig A\nendchoice => A int depends y; A untyped in 0 depends y; A untyped in 1 depends y; choice untyped; choice untyped
choice\nconfig A\nconfig A\nendchoice => A untyped in 0 depends y; A untyped in 0 depends y; choice untyped
";

#[test]
fn members_of_two_choices(rt: HostRuntime) -> Result<(), Fail> {
    check_lines(rt.alloc(), MEMBERS, read_alone)
}

const CHOICE_TYPES: &str = r"
choice\nconfig A\ntristate ( => Kconfig:3: Expression
choice\nconfig A\ndef_tristate y\nendchoice => A tristate in 0 depends y default y if y; choice tristate
choice\nconfig A\nint\nconfig B\ndef_tristate y\nendchoice => A int in 0 depends y; B tristate in 0 depends y default y if y; choice tristate
config I\nbool\nchoice\nconfig I\nint\nbool\nendchoice => I bool depends y; I int in 0 depends y; choice bool
config I\nint\nchoice\nconfig I\nbool\nconfig T\ntristate\nendchoice => I int depends y; I bool in 0 depends y; T tristate in 0 depends y; choice tristate
choice\nbool\nconfig A\ndef_tristate y\nendchoice => A tristate in 0 depends y default y if y; choice bool
choice\nconfig B\ndef_bool n\nconfig A\ndef_tristate A\nendchoice => B bool in 0 depends y default n if y; A tristate in 0 depends y default A if y; choice bool
";

#[test]
fn types_of_choices(rt: HostRuntime) -> Result<(), Fail> {
    check_lines(rt.alloc(), CHOICE_TYPES, read_alone)
}
