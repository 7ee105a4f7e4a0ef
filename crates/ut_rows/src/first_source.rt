use cpp_directives::{Cond, Directive, What};
use std::alloc::Global;
use std::test::Fail;
use test_texts::check_lines;
use undertaker::{FirstBad, first_directives};

/// The line of a `NotYet`, or 0 where the text is of the form.
fn refused(alloc: Global, text: &str) -> Result<String, Fail> {
    if text.len() > 16_777_216 {
        return Err(Fail::from("a text that is too long"));
    }
    match first_directives(alloc, text.as_bytes()) {
        Ok(_) => Ok(String::from_str(alloc, "0")?),
        Err(FirstBad::NotYet { line }) => Ok(format!(in alloc; "{line}")?),
        Err(bad) => Err(Fail::from(bad)),
    }
}

const TEXTS: &str = r#"
 => 0
\n\0\n => 0
#ifdef A\n => 1
\n#ifdef A\n#ifdef B\n#endif\n => 2
#ifdef A\n#endif\n#endif\n => 3
#if 1\n#endif\n => 1
\n#ifdef  A\n => 2
#ifdef A \n => 1
#ifdef 9\n => 1
a\n// b\n => 2
\n\n" => 3
"#;

/// The line of a `NotYet` of a text of so many openers.
fn refused_nested(alloc: Global, count: &str) -> Result<String, Fail> {
    let text = "#ifdef A\n".repeat(alloc, count.parse::<usize>()?)?;
    refused(alloc, text.as_str())
}

const NESTED: &str = "
250 => 250
251 => 251
";

fn is_negated(directive: &Directive, name: &str) -> bool {
    match &directive.what {
        What::If(Cond::Neg(inner)) => match inner.get() {
            Cond::Defined(text) => text.text() == name,
            _ => false,
        },
        _ => false,
    }
}

#[test]
fn sources_of_the_first_form(rt: HostRuntime) -> Result<(), Fail> {
    let alloc = rt.alloc();
    let list = first_directives(alloc, b"int a;\r\n#ifdef A\r\n#ifndef _b9\n#endif\n#endif")?;
    assert!(rt; list.len() == 4);
    assert!(rt; list[1].line == 3 && is_negated(&list[1], "_b9"));
    assert!(rt; list[3].line == 5 && matches!(&list[3].what, What::Endif));
    check_lines(alloc, TEXTS, refused)?;
    check_lines(alloc, NESTED, refused_nested)
}
