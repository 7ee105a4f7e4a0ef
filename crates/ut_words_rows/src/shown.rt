use std::alloc::{AllocError, Global};
use ut_base::{Name, Word};
use ut_words::{Job, Order, Style, UsageKind, WordsBad, parse};

/// The order that words give, as a text, or their usage kind; the words are cut at single spaces.
pub fn read(alloc: Global, line: &str) -> Result<String, AllocError> {
    let mut words = Vec::new(alloc);
    for word in line.split(' ') {
        words.push(Word::new(alloc, word)?)?;
    }
    answer(alloc, words.as_slice())
}

/// The order that these words give, as a text, or their usage kind.
pub fn answer(alloc: Global, words: &[Word]) -> Result<String, AllocError> {
    match parse(alloc, words) {
        Ok(order) => shown(alloc, &order),
        Err(WordsBad::Usage(kind)) => String::from_str(alloc, kind_word(kind)),
        Err(WordsBad::Oom) => Err(AllocError),
    }
}

fn kind_word(kind: UsageKind) -> &'static str {
    match kind {
        UsageKind::Words => "words",
        UsageKind::Job => "job",
        UsageKind::Number => "number",
        UsageKind::Style => "style",
        UsageKind::Var => "var",
        UsageKind::Needs => "needs",
        UsageKind::File => "file",
    }
}

fn job_word(job: Job) -> &'static str {
    match job {
        Job::Dead => "dead",
        Job::Check => "check",
        Job::Coverage => "coverage",
        Job::Tailor => "tailor",
        Job::Dumpconf => "dumpconf",
        Job::Model => "model",
        Job::Golem => "golem",
        Job::Generate => "generate",
    }
}

// What differs from an order of the job alone, option by option.
fn shown(alloc: Global, order: &Order) -> Result<String, AllocError> {
    let mut text = String::from_str(alloc, job_word(order.job))?;
    push_name(&mut text, "kconfig", &order.kconfig)?;
    push_name(&mut text, "rsf", &order.rsf)?;
    push_name(&mut text, "model", &order.model)?;
    push_name(&mut text, "kbuild", &order.kbuild)?;
    push_name(&mut text, "report", &order.report)?;
    push_name(&mut text, "trace", &order.trace)?;
    push_name(&mut text, "white", &order.white)?;
    push_name(&mut text, "black", &order.black)?;
    for var in order.vars.as_slice() {
        push(&mut text, "var", var.name.text())?;
        push(&mut text, "is", var.value.text())?;
    }
    if order.workers != 1 {
        push(
            &mut text,
            "workers",
            format!(in alloc; "{}", order.workers)?.as_str(),
        )?;
    }
    if order.steps != 4_000_000 {
        push(
            &mut text,
            "steps",
            format!(in alloc; "{}", order.steps)?.as_str(),
        )?;
    }
    if let Some(size) = order.size {
        push(&mut text, "size", format!(in alloc; "{size}")?.as_str())?;
    }
    match order.style {
        Style::Simple => (),
        Style::Min => text.push_str(" min")?,
    }
    if order.evidence {
        text.push_str(" evidence")?;
    }
    for file in order.files.as_slice() {
        push(&mut text, "file", file.text())?;
    }
    Ok(text)
}

fn push(text: &mut String, what: &str, value: &str) -> Result<(), AllocError> {
    text.push_str(" ")?;
    text.push_str(what)?;
    text.push_str(":")?;
    text.push_str(value)
}

fn push_name(text: &mut String, what: &str, name: &Option<Name>) -> Result<(), AllocError> {
    match name {
        Some(name) => push(text, what, name.text()),
        None => Ok(()),
    }
}
