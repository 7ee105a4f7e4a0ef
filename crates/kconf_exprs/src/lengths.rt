ghost use Rattle.std.specs.Prelude.{◌≡◌, ◌≤◌, ◌<◌, IfSome, IfNone, drop, length, None, Some};
ghost use Rattle.std.specs.Option.{option_map};
ghost use Rattle.kconf_exprs.specs.Grammar as spec;
ghost use Rattle.kconf_exprs.specs.Scan as scan;

use crate::roles::{Role, role_of};
use kconf_words::LineWord;

/// What is wanted at a place of an expression.
#[derive(Clone, Copy)]
pub enum Wants {
    /// An operand, `!` or `(`.
    Operand,
    /// The second side of a comparison.
    Side,
    /// The sign of a comparison, or what stands after an operand.
    Compare,
    /// `&&`, `||`, `)` or the end.
    Joint,
}

/// What a word does at a place of an expression.
#[derive(Clone, Copy)]
pub enum ScanStep {
    /// The expression goes on, with this many parentheses open.
    Goes(Wants, usize),
    /// The expression ends before the word.
    Ends,
    /// No expression stands here.
    Fails,
}

/// What a word does after a whole operand.
fn after_operand(depth: usize, role: Role) -> ScanStep
    ensures { result ≡ scan.after_operand depth role }
{
    match role {
        Role::And => ScanStep::Goes(Wants::Operand, depth),
        Role::Or => ScanStep::Goes(Wants::Operand, depth),
        Role::Close if depth > 0 => ScanStep::Goes(Wants::Joint, depth - 1),
        _ if depth == 0 => ScanStep::Ends,
        _ => ScanStep::Fails,
    }
}

/// What a word does where an operand is wanted.
fn at_operand(depth: usize, role: Role) -> ScanStep
    requires { depth < 18446744073709551615 }
    ensures { result ≡ scan.at_operand depth role }
{
    match role {
        Role::Operand => ScanStep::Goes(Wants::Compare, depth),
        Role::Not => ScanStep::Goes(Wants::Operand, depth),
        Role::Open => ScanStep::Goes(Wants::Operand, depth + 1),
        _ => ScanStep::Fails,
    }
}

/// What a word does.
fn scan_step(wants: Wants, depth: usize, role: Role) -> ScanStep
    requires { depth < 18446744073709551615 }
    ensures { result ≡ scan.step wants depth role }
{
    match wants {
        Wants::Operand => at_operand(depth, role),
        Wants::Side => match role {
            Role::Operand => ScanStep::Goes(Wants::Joint, depth),
            _ => ScanStep::Fails,
        },
        Wants::Compare => match role {
            Role::Compares(_) => ScanStep::Goes(Wants::Side, depth),
            _ => after_operand(depth, role),
        },
        Wants::Joint => after_operand(depth, role),
    }
}

/// Whether the words may end here.
fn may_end(wants: Wants, depth: usize) -> bool
    ensures { result ≡ scan.may_end wants depth }
{
    match wants {
        Wants::Operand => false,
        Wants::Side => false,
        Wants::Compare => depth == 0,
        Wants::Joint => depth == 0,
    }
}

/// How many words the scan passes.
fn scanned_len(words: &[LineWord]) -> Option<usize>
    ensures value { scan.drops words.now result ≡ scan.scan Wants.Operand 0 words.now }
    ensures within { IfSome result (λ n. n ≤ length words.now) }
{
    let mut wants = Wants::Operand;
    let mut depth = 0;
    let mut count = 0;
    for word in words {
        match scan_step(wants, depth, role_of(word)) {
            ScanStep::Goes(next, open) => {
                wants = next;
                depth = open;
            }
            ScanStep::Ends => return Some(count),
            ScanStep::Fails => return None,
        }
        count += 1;
    }
    if may_end(wants, depth) {
        Some(count)
    } else {
        None
    }
}

/// How many words the expression takes that stands at the front. There is None where no expression stands there.
///
/// However deep the expression is, this takes neither memory nor stack.
pub fn expression_len(words: &[LineWord]) -> Option<usize>
    ensures value { scan.drops words.now result ≡ option_map (λ p. p.rest) (spec.expression_at words.now) }
    ensures within { IfSome result (λ n. n ≤ length words.now) }
{
    scanned_len(words)
}
