ghost use Rattle.std.specs.Prelude.{◌≡◌, List};
ghost use Rattle.kconf_words.specs.declared.line_words.LineWord.{LineWord};
ghost use Rattle.kconf_exprs.specs.Grammar.{is_or, is_and, disjunction, conjunction, joined_by, one_factor, expression_at, conjunction_at, factor_at};

/// The grammar of expressions as its three rules, without a count of steps: an expression is conjunctions joined by
/// `||`, a conjunction is factors joined by `&&`, and a factor is a symbol, a comparison, `!` and a factor, or an
/// expression in parentheses.
///
/// Rule: Linux kconfig-language, "Menu dependencies".
pub fn expressions_follow_the_grammar()
    ensures expression { (ws : List LineWord) → expression_at ws ≡ joined_by is_or disjunction conjunction_at expression_at ws }
    ensures conjunction { (ws : List LineWord) → conjunction_at ws ≡ joined_by is_and conjunction factor_at conjunction_at ws }
    ensures factor { (ws : List LineWord) → factor_at ws ≡ one_factor factor_at expression_at ws }
{}
