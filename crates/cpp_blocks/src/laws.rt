//! Laws of runs, for the crates above.

ghost use Rattle.std.specs.Prelude.{◌≡◌, ℕ, List, All, length, map, true};
ghost use Rattle.ut_logic.specs.declared.facts.Fact as declared;
ghost use Rattle.cpp_directives.specs.declared.directive.Directive as directive;
ghost use Rattle.cpp_directives.specs.WellFormed.{IsWellFormed};
ghost use Rattle.cpp_blocks.specs.declared.starts.StartOf as start_of;
ghost use Rattle.cpp_blocks.specs.declared.starts.BuiltOf as built_of;
ghost use Rattle.cpp_blocks.specs.Alike.{RunsAlike, LinesMatterNowhere};
ghost use Rattle.cpp_blocks.specs.Facts.{facts_of, AreStarts, is_outside};
ghost use Rattle.cpp_blocks.specs.Formulas.{source_of};
ghost use Rattle.cpp_blocks.specs.Given.{DefinesOwn, ListsGiven, MentionsGiven};
ghost use Rattle.cpp_blocks.specs.Mentions.{names_of};
ghost use Rattle.cpp_blocks.specs.Nodes.{nodes_of, AreLoose, IsOrderly, IsListed, ListsOwn, MentionsOwn, NamesGiven, IsListedStart, IsListedBuilt};
ghost use Rattle.cpp_blocks.specs.Once.{AreNumberedOnce};
ghost use Rattle.cpp_blocks.specs.Solution.{IsTheRun};

/// A run rests on what its source names: starts that agree on its macro names, its opaque pieces and its free lines
/// have the same blocks on.
pub fn runs_rest_on_what_is_named()
    ensures { RunsAlike }
{}

/// The line of a directive matters only at a `#define` whose body is no number: directives that differ in other
/// lines have the same blocks, names, pieces, facts and runs.
pub fn lines_matter_where_truths_are_free()
    ensures { LinesMatterNowhere }
{}

/// A source numbers each of its macro names, opaque pieces and free lines once, in the order of first appearance.
pub fn names_pieces_and_lines_are_once()
    ensures { AreNumberedOnce }
{}

/// Law: the facts of a source have exactly one solution, the run. Rule: ISO C, "Conditional inclusion" and "Macro
/// replacement"; facts are this project's rule.
pub fn facts_are_the_run()
    ensures { (file : ℕ) (ds : List directive.Directive) (starts : List start_of.StartOf) (built : built_of.BuiltOf) →
        IsWellFormed ds → length starts ≡ length (names_of ds) → AreStarts file 0 starts → is_outside built.formula ≡ true →
        IsTheRun (source_of file ds) ds starts built (facts_of file ds starts built) }
{}

/// Law: each block and each state of a source has one fact, in order; a fact names nodes that stand lower, and lists all
/// that it mentions.
pub fn facts_are_orderly()
    ensures known { (file : ℕ) (ds : List directive.Directive) (starts : List start_of.StartOf) (built : built_of.BuiltOf) →
        IsWellFormed ds → length starts ≡ length (names_of ds) →
        map (λ (fact : declared.Fact). fact.node) (facts_of file ds starts built) ≡ nodes_of file ds }
    ensures orderly { (file : ℕ) (ds : List directive.Directive) (starts : List start_of.StartOf) (built : built_of.BuiltOf) →
        IsWellFormed ds → All IsListedStart starts → IsListedBuilt built → All (IsOrderly file ds) (facts_of file ds starts built) }
    ensures listed { (file : ℕ) (ds : List directive.Directive) (starts : List start_of.StartOf) (built : built_of.BuiltOf) →
        All IsListedStart starts → IsListedBuilt built → All IsListed (facts_of file ds starts built) }
    ensures own { (file : ℕ) (ds : List directive.Directive) (starts : List start_of.StartOf) (built : built_of.BuiltOf) →
        IsWellFormed ds → All IsListedStart starts → IsListedBuilt built → All (MentionsOwn file) (facts_of file ds starts built) }
{}

/// Law: a fact of a source lists items of its own node, and loose ones where those of starts and of the source's condition
/// are; it names no other symbols and choices than they do; and what it lists beside its own is theirs, or an opaque piece or
/// a free line of the source.
pub fn facts_list_their_own()
    ensures lists { (file : ℕ) (ds : List directive.Directive) (starts : List start_of.StartOf) (built : built_of.BuiltOf) →
        All (λ (s : start_of.StartOf). AreLoose s.items) starts → AreLoose built.items → All ListsOwn (facts_of file ds starts built) }
    ensures names { (file : ℕ) (ds : List directive.Directive) (starts : List start_of.StartOf) (built : built_of.BuiltOf) →
        All (NamesGiven starts built) (facts_of file ds starts built) }
    ensures given { (file : ℕ) (ds : List directive.Directive) (starts : List start_of.StartOf) (built : built_of.BuiltOf) →
        All (ListsGiven file ds starts built) (facts_of file ds starts built) }
{}

/// Law: a fact of a source mentions items of its run, or what the source's condition or a start mentions; and it defines
/// items of its own node alone.
pub fn facts_mention_their_own()
    ensures mentions { (file : ℕ) (ds : List directive.Directive) (starts : List start_of.StartOf) (built : built_of.BuiltOf) →
        All (MentionsGiven file starts built) (facts_of file ds starts built) }
    ensures defines { (file : ℕ) (ds : List directive.Directive) (starts : List start_of.StartOf) (built : built_of.BuiltOf) →
        All DefinesOwn (facts_of file ds starts built) }
{}
