ghost use Rattle.std.specs.Prelude.{◌≡◌, ◌⊎◌, ◌<◌, ◌∷◌, ◌++◌, [], codes, length, IfNone, IfSome};
ghost use Rattle.line_texts.specs.Lines.{HasNoNewline, lines_of, whole_lines};

use memchr::memchr;

/// The first line of a text, without its newline, and the text after that newline.
///
/// A carriage return is a byte of the line. A last line may lack its newline, and nothing is left then. This project's
/// rule; lines of Kconfig, Kbuild and C texts are those of `ut_text`.
pub fn split_line(text: &[u8]) -> (&[u8], &[u8])
    requires { 0 < length text.now }
    ensures lines { lines_of text.now ≡ result.0.now ∷ lines_of result.1.now }
    ensures plain { HasNoNewline result.0.now }
    ensures newline { (text.now ≡ result.0.now ++ codes "\n" ++ result.1.now)
        ⊎ ((text.now ≡ result.0.now) × (result.1.now ≡ [])) }
    ensures shorter { length result.1.now < length text.now }
{
    match memchr(b'\n', text) {
        Some(newline) => (&text[..newline], &text[newline + 1..]),
        None => (text, &text[text.len()..]),
    }
}

/// The first line of a text, without its newline, and the text after it.
///
/// None where the text has no newline, so that it is empty or one line that lacks it. This project's rule.
pub fn split_whole_line(text: &[u8]) -> Option<(&[u8], &[u8])>
    ensures found { IfSome result (λ parts. whole_lines text.now ≡ (parts.0.now ++ codes "\n") ∷ whole_lines parts.1.now) }
    ensures plain { IfSome result (λ parts. HasNoNewline parts.0.now) }
    ensures shorter { IfSome result (λ parts. length parts.1.now < length text.now) }
    ensures none { IfNone result (HasNoNewline text.now) }
{
    match memchr(b'\n', text) {
        Some(newline) => Some((&text[..newline], &text[newline + 1..])),
        None => None,
    }
}
