use crate::readings::{read_alone, read_lines, read_with, vars_of};
use std::alloc::Global;
use std::test::Fail;
use test_rows::{check_blocks, check_lines};

const ENTRIES: &str = r#"=>
--
mainmenu "x"
comment y
depends on A
=>
--
menu "x"
    depends on P
config A
    bool "a" if Q
    depends on R || S
endmenu
config B
=>
A bool depends (and P (or R S)) prompt (and Q P (or R S))
B untyped depends y
--
config M
    bool "m"
    option modules
    default "y" if A
    select B if C
    depends on D && E
config M
modules
option env="x"
=>
M bool depends (and D E) prompt (and D E) default y 'y' if (and A D E) select B if (and C D E) modules
M untyped depends y modules
--
if A && B
choice C
    prompt "c" if D
    optional
    default X if E
    depends on F
comment x
    depends on G
if H
config X
    bool "x"
    depends on I
endif
config Y
    tristate
endchoice
endif
=>
X bool in 0 depends (and A B F H I) prompt (and A B F H I)
Y tristate in 0 depends (and A B F)
choice bool optional prompt (and D A B F) default X if (and E A B F)
--
config A
    depends on y
    depends on !B || n
    default 0x1F if B = "x y"
    default ('z')
=>
A untyped depends (or !B n) default n '0x1F' if (and B='x y' (or !B n)) default n if (or !B n)
--
config A
    depends on P
    imply B if C
    imply D
=>
A untyped depends P imply B if (and C P) imply D if P
--
menu "outer"
    visible if V
    depends on P
menu "inner"
    visible if W || X
config A
    bool "a" if Q
    default y if D
    select S
    depends on R
choice
    tristate "c"
    depends on T
config X
    tristate "x"
endchoice
endmenu
endmenu
=>
A bool depends (and P R) prompt (and Q P R V (or W X)) default y if (and D P R) select S if (and P R)
X tristate in 0 depends (and P T) prompt (and P T V (or W X))
choice tristate prompt (and P T V (or W X))
--
menuconfig A
    bool
    int
    def_tristate B if C
    prompt D
    prompt if if E
=>
A bool depends y prompt y prompt E default B if C
"#;

#[test]
fn entries_and_their_dependencies(rt: HostRuntime) -> Result<(), Fail> {
    check_blocks(rt.alloc(), ENTRIES, read_lines)
}

const VALUES: &str = r#"
config A\ndefault "y" if 'm' => A untyped depends y default y 'y' if m
config A\ndefault m && B => A untyped depends y default (and m B) if y
config A\ndefault n => A untyped depends y default n if y
config A\nhex\ndefault 0xfe => A hex depends y default n '0xfe' if y
config A\ndefault -7 if B => A untyped depends y default n '-7' if B
config A\ndefault a-b/c.d => A untyped depends y default n 'a-b/c.d' if y
config A\nint\nrange 1 B if C => A int depends y
config A\ndepends on B = C && B != y && B < 5 && B > "x" && B <= 0x1F && "m" >= B => A untyped depends (and B=C B!=y B<#5 B>'x' B<=#0x1F m>=B)
config A\ndepends on B || C\ndepends on 'y'\ndepends on D && (E && F) => A untyped depends (and (or B C) D E F)
"#;

#[test]
fn values_and_conditions(rt: HostRuntime) -> Result<(), Fail> {
    check_lines(rt.alloc(), VALUES, read_alone)
}

const HELP_TEXTS: &str = r#"
config A\n\thelp\n\t  text\n\n\t   more\n\tbool => A bool depends y
config A\n---help---\n\ttext\n        bool\n config B => A untyped depends y; B untyped depends y
config A\nhelp\n  a\n \tb\n  bool => A untyped depends y
config A\nhelp\n  a\n bool => A bool depends y
config A\nhelp\n\n \t \n  a\nbool => A bool depends y
config A\nbool\nhelp => A bool depends y
config A\nbool\nhelp\n\n => A bool depends y
config A\nhelp\nbool => A bool depends y
config A\nhelp\n\nbool => A bool depends y
config A\nhelp\n  it's "\n  $(\nbool => A bool depends y
config A\nhelp\n  a\\\nbool => A bool depends y
config A\r\nhelp\r\n  a\r\n\r\n b\r\n => Kconfig:5: Word
choice\nhelp\n  text\nconfig A\nendchoice => A untyped in 0 depends y; choice untyped
"#;

#[test]
fn help_texts(rt: HostRuntime) -> Result<(), Fail> {
    check_lines(rt.alloc(), HELP_TEXTS, read_alone)
}

const QUOTES: &str = r#"
config A\ndefault "$(x,"a")" => A untyped depends y default <$(x,"a")> if y
config A\ndefault $(x,'a)#) => A untyped depends y default <$(x,'a)> if y
config A\ndefault $(a(b)#c)d => A untyped depends y default <$(a(b)#c)d> if y
config A\ndefault 'a"b#' => A untyped depends y default n 'a"b#' if y
config A\ndefault "a'b" # c => A untyped depends y default n 'a'b' if y
config A\ndefault $(a,$(b)) if "$(c)" = 'y' => A untyped depends y default <$(a,$(b))> if <"$(c)" = y>
config A\nbool "a$(x)" if $(x) && B => A bool depends y prompt (and <$(x)> B)
"#;

#[test]
fn quotes_round_macro_calls(rt: HostRuntime) -> Result<(), Fail> {
    check_lines(rt.alloc(), QUOTES, read_alone)
}

const LINE_ENDS: &str = r#"
config \\\nA\n\tbool => A bool depends y
config A\nbool "a\\"b" if C => A bool depends y prompt C
config A\ndefault "a\\\\" => A untyped depends y default n 'a\\' if y
config A\ndefault "a\\" => Kconfig:2: Quote
config A\ndefault "a\\\nb" => A untyped depends y default n 'ab' if y
config A\ndefault \\\n\\\n&& => Kconfig:2: Expression
# a\\\nconfig A =>
config A\\ B => Kconfig:1: Extra
config \\ \nA => Kconfig:1: Named
config A\r\n\tbool "a"\r\n\tdepends on B \\\r\n\t && C\r\n => A bool depends (and B C) prompt (and B C)
config A\r => Kconfig:1: Extra
"#;

#[test]
fn backslashes_and_line_ends(rt: HostRuntime) -> Result<(), Fail> {
    check_lines(rt.alloc(), LINE_ENDS, read_alone)
}

const BYTES: &str = r#"
config A # é\nbool "é"\nhelp\n  é => A bool depends y prompt y
config A\ndefault "é" => A untyped depends y default n '\\xc3\\xa9' if y
config é => Kconfig:1: Named
config Aé => Kconfig:1: Extra
menu é => Kconfig:1: Expression
é => Kconfig:1: Word
"#;

#[test]
fn bytes_past_127(rt: HostRuntime) -> Result<(), Fail> {
    check_lines(rt.alloc(), BYTES, read_alone)
}

const HANDED_IN: &str = r#"
config $(ARCH) => x86 untyped depends y
config $(ARCH)_$(BITS) => x86_64 untyped depends y
config $(BITS) => Kconfig:1: Named
config $(z) => Kconfig:1: Named
config A\ndefault "$(ARCH)" => A untyped depends y default n 'x86' if y
config A\ndefault $(BITS) if $(Y) => A untyped depends y default n '64' if y
config A\ndefault $(x,$(ARCH)) => A untyped depends y default <$(x,$(ARCH))> if y
config A\ndefault "$(Q)" => A untyped depends y default n '$(z)' if y
config A\ndefault $(E) => A untyped depends y default n '' if y
config A\ndepends on $(ARCH) = 'x86' => A untyped depends x86='x86'
$(ARCH) A =>
"#;

#[test]
fn values_that_are_handed_in(rt: HostRuntime) -> Result<(), Fail> {
    let pairs = [
        ("ARCH", "x86"),
        ("Y", "y"),
        ("BITS", "64"),
        ("Q", "$(z)"),
        ("E", ""),
    ];
    let vars = vars_of(rt.alloc(), pairs.as_slice())?;
    let answer = |alloc: Global, text: &str| read_with(alloc, text, vars.as_slice());
    check_lines(rt.alloc(), HANDED_IN, answer)
}
