use std::alloc::{AllocError, Global};

/// The byte that a letter after a backslash stands for, as in Rust; any other letter stands for itself.
fn escaped(letter: char) -> char {
    match letter {
        'n' => '\n',
        't' => '\t',
        'r' => '\r',
        '0' => '\0',
        other => other,
    }
}

/// The text with its escapes `\n`, `\t`, `\r`, `\0` and `\\` taken as in Rust. The only error is want of memory.
pub fn unescaped(alloc: Global, text: &str) -> Result<String, AllocError> {
    let mut out = String::new(alloc);
    let mut after_backslash = false;
    for letter in text.chars() {
        if after_backslash {
            out.push(escaped(letter))?;
            after_backslash = false;
        } else if letter == '\\' {
            after_backslash = true;
        } else {
            out.push(letter)?;
        }
    }
    Ok(out)
}
