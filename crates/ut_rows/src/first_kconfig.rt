use kconf_entries::Expr;
use std::alloc::Global;
use std::test::Fail;
use test_texts::{check_lines, files_of};
use undertaker::{KconfigBad, first_tree};
use ut_base::{Limit, Meter, Name};
use ut_logic::Trit;

/// The line of a `NotYet`, or 0 where the text is of the form.
fn refused(alloc: Global, text: &str) -> Result<String, Fail> {
    let mut files = files_of(alloc, &[("Kconfig", text)], &[])?;
    let root = Name::new(alloc, "Kconfig")?.ok_or("a name")?;
    let mut meter = Meter::new();
    match first_tree(alloc, &mut files, &root, &mut meter) {
        Ok(_) => Ok(String::from_str(alloc, "0")?),
        Err(KconfigBad::NotYet { line, .. }) => Ok(format!(in alloc; "{line}")?),
        Err(bad) => Err(Fail::from(bad)),
    }
}

const TEXTS: &str = r#"
 => 0
config A\n\tbool "a"\nconfig B\n\tbool "b"\n\tdepends on A\n => 0
config A\r\n\tbool "a" => 0
config A\n\ttristate "a"\n => 2
config A\n\tbool "a"\nconfig B\n => 3
config A\n => 1
\n => 1
config a\n\tbool "a"\n => 1
config A\n\tbool "a"\nconfig A\n => 3
config A\n\tbool "a"\n\tdepends on A\n => 3
config A\n\tbool "a"\n\tdepends on B\n => 3
config A\n\tbool "a"\nconfig B\n\tbool "b"\n\tdepends on A &&\n => 5
config A\n\tbool "a$"\n => 2
config A\n\tbool "a" \n => 2
"#;

#[test]
fn texts_of_the_first_form(rt: HostRuntime) -> Result<(), Fail> {
    check_lines(rt.alloc(), TEXTS, refused)
}

#[test]
fn entries_and_faults(rt: HostRuntime) -> Result<(), Fail> {
    let alloc = rt.alloc();
    let text =
        "config A\n\tbool \"\"\nconfig B\n\tbool \"b\"\n\tdepends on A\nconfig C\n\tbool \"c\"\n\tdepends on A && B\n\tdepends on A\n";
    let mut files = files_of(alloc, &[("Kconfig", text)], &[2])?;
    let root = Name::new(alloc, "Kconfig")?.ok_or("a name")?;
    let absent = Name::new(alloc, "Konfig")?.ok_or("a name")?;
    let mut meter = Meter::new();
    let entries = first_tree(alloc, &mut files, &root, &mut meter)?;
    let configs = entries.configs.as_slice();
    assert!(rt; configs.len() == 3 && entries.choices.is_empty());
    assert!(rt; configs[2].name.text() == "C");
    assert!(rt; matches!(&configs[0].depends, Expr::Const(Trit::Y)));
    assert!(rt; matches!(&configs[1].depends, Expr::Name(_)));
    assert!(rt;
        matches!(configs[2].prompts.as_slice().first(), Some(Expr::And(list)) if list.len() == 3)
    );
    assert!(rt; meter.used() == text.len() as u64);
    let failed = first_tree(alloc, &mut files, &root, &mut meter);
    assert!(rt; matches!(failed, Err(KconfigBad::ReadFault { .. })));
    let missing = first_tree(alloc, &mut files, &absent, &mut meter);
    assert!(rt; matches!(missing, Err(KconfigBad::Missing { .. })));
    let long = "x".repeat(alloc, 16_777_217)?;
    let mut files = files_of(alloc, &[("Kconfig", &long)], &[])?;
    let refusal = first_tree(alloc, &mut files, &root, &mut meter);
    assert!(rt;
        matches!(
            refusal,
            Err(KconfigBad::TooLarge {
                what: Limit::FileBytes,
                count: 16_777_217
            })
        )
    );
    Ok(())
}
