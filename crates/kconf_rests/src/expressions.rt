ghost use Rattle.std.specs.Prelude.{◌≡◌, ◌<◌, Some};
ghost use Rattle.kconf_words.specs.Faults.{Gives};
ghost use Rattle.kconf_exprs.specs.Grammar.{Parsed, expression_at as expression};
ghost use Rattle.kconf_rests.specs.Rests as spec;
ghost use Rattle.kconf_rests.specs.Reading as inner;

use kconf_entries::Expr;
use kconf_exprs::{ExprBad, expression_len, read_expression};
use kconf_words::{LineBad, LineWord, SyntaxKind};
use std::alloc::Global;
use ut_base::Limit;

/// An expression, which is none where too many signs stand over one of its words, and the words after it.
#[derive(Drop)]
pub struct ExprAt<'a> {
    pub expr: Option<Expr>,
    pub rest: &'a [LineWord],
}

/// The expression that the words begin with.
pub fn expression_at(alloc: Global, words: &[LineWord]) -> Result<ExprAt<'_>, LineBad>
    ensures { inner.ExpressionAt words.now result }
{
    match read_expression(alloc, words) {
        Ok((expr, rest)) => Ok(ExprAt {
            expr: Some(expr),
            rest,
        }),
        Err(ExprBad::Absent) => Err(LineBad::Syntax(SyntaxKind::Expression)),
        Err(ExprBad::TooDeep) => deep_expression(words),
        Err(ExprBad::Oom) => Err(LineBad::Oom),
    }
}

/// The place of an expression of which too many signs stand over one of its words, if the words begin with one.
fn deep_expression(words: &[LineWord]) -> Result<ExprAt<'_>, LineBad>
    requires { (p : Parsed) → expression words.now ≡ Some p → spec.most_signs < p.signs }
    ensures { inner.ExpressionAt words.now result }
{
    match expression_len(words) {
        Some(count) => Ok(ExprAt {
            expr: None,
            rest: &words[count..],
        }),
        None => Err(LineBad::Syntax(SyntaxKind::Expression)),
    }
}

/// An expression over whose words not too many signs stand.
pub fn within_limit(expr: Option<Expr>) -> Result<Expr, LineBad>
    ensures { Gives result (inner.limited expr) }
{
    match expr {
        Some(expr) => Ok(expr),
        None => Err(LineBad::Depth(Limit::Brackets)),
    }
}

/// The expression that all of the words are. None where too many signs stand over one of them.
pub fn expression_alone(alloc: Global, words: &[LineWord]) -> Result<Option<Expr>, LineBad>
    ensures { inner.OneExpression (spec.expression_alone words.now) result }
{
    let read = expression_at(alloc, words)?;
    match read.rest {
        [] => Ok(read.expr),
        [_, ..] => Err(LineBad::Syntax(SyntaxKind::Extra)),
    }
}

/// One expression, over whose words not too many signs stand.
pub fn an_expression(alloc: Global, words: &[LineWord]) -> Result<Expr, LineBad>
    ensures { Gives result (spec.an_expression words.now) }
{
    let expr = expression_alone(alloc, words)?;
    within_limit(expr)
}
