ghost use Rattle.std.specs.Prelude.{◌≡◌, ℕ, List, true, [], ◌∷◌, ◌++◌, length, IfOk, OnOk};
ghost use Rattle.std.specs.List.{list_any, list_all};
ghost use Rattle.kconf_tree.specs.Shape.{Shape};
ghost use Rattle.undertaker.specs.Dependencies.{IsLeastClosed, is_among};
ghost use Rattle.undertaker.specs.FirstTrees.{Shows};
ghost use Rattle.undertaker.specs.Judging.{AreOf, IsFirstRefusal, AnswersWord, WordsBehind, AreAnswered};
ghost use Rattle.undertaker.specs.Marks.{AreClear};
ghost use Rattle.undertaker.specs.Steps.{path_behind, wishes_in};
ghost use Rattle.undertaker.specs.Wishes as spec;

use crate::closing::{clear, closure};
use crate::dependencies::Dependencies;
use crate::path::Path;
use crate::steps::Step;
use crate::wishes::Wish;
use std::alloc::{AllocError, Global};
use ut_case::{Class, Word};

/// Whether the wanted symbols need one that a wish asks not to be there.
fn is_hit(
    alloc: Global,
    graph: &Dependencies,
    marks: &mut [bool],
    path: &Path,
    own: Wish,
) -> Result<bool, AllocError>
    requires count { length marks.old ≡ length graph.now.needs }
    requires clear { AreClear marks.old }
    requires within { list_all (spec.is_below (length graph.now.needs)) (own ∷ path.now) ≡ true }
    ensures hit { IfOk result (λ h. (found : List ℕ) × IsLeastClosed graph.now (spec.wanted_symbols (own ∷ path.now)) found × (h ≡ list_any (spec.is_hit (is_among found)) (own ∷ path.now))) }
    ensures clear { OnOk result (AreClear marks.new) }
    ensures count { length marks.new ≡ length marks.old }
{
    let wanted = path.wanted(alloc, own)?;
    let found = closure(alloc, graph, marks, &wanted)?;
    let hit = path.is_hit(own, marks);
    clear(marks, &found);
    Ok(hit)
}

/// The first family of cases that refuses the wishes of the path and this one, from the widest.
fn refusal(
    alloc: Global,
    graph: &Dependencies,
    marks: &mut [bool],
    path: &Path,
    own: Wish,
) -> Result<Option<Class>, AllocError>
    requires count { length marks.old ≡ length graph.now.needs }
    requires clear { AreClear marks.old }
    requires within { list_all (spec.is_below (length graph.now.needs)) (own ∷ path.now) ≡ true }
    ensures first { IfOk result (λ r. (t : Shape) (macros : List (List ℕ)) → Shows t graph.now → AreOf t macros (own ∷ path.now) → IsFirstRefusal t macros (own ∷ path.now) r) }
    ensures clear { OnOk result (AreClear marks.new) }
    ensures count { length marks.new ≡ length marks.old }
{
    if path.clashes(own) {
        return Ok(Some(Class::Code));
    }
    if is_hit(alloc, graph, marks, path, own)? {
        return Ok(Some(Class::Kconfig));
    }
    if path.wants_module(own) {
        return Ok(Some(Class::Kconfig));
    }
    if path.wants_undeclared(own) {
        return Ok(Some(Class::Missing));
    }
    Ok(None)
}

/// The word on the block that asks this inside the blocks of the path.
fn word_of(
    alloc: Global,
    graph: &Dependencies,
    marks: &mut [bool],
    path: &Path,
    own: Wish,
) -> Result<Word, AllocError>
    requires count { length marks.old ≡ length graph.now.needs }
    requires clear { AreClear marks.old }
    requires within { list_all (spec.is_below (length graph.now.needs)) (own ∷ path.now) ≡ true }
    ensures word { IfOk result (λ w. (t : Shape) (macros : List (List ℕ)) → Shows t graph.now → AreOf t macros (own ∷ path.now) → AnswersWord t macros (own ∷ path.now) w) }
    ensures clear { OnOk result (AreClear marks.new) }
    ensures count { length marks.new ≡ length marks.old }
{
    match refusal(alloc, graph, marks, path, own)? {
        Some(class) => return Ok(Word::Dead(class)),
        None => {}
    }
    match refusal(alloc, graph, marks, path, own.turned())? {
        Some(class) => Ok(Word::Undead(class)),
        None => Ok(Word::Live),
    }
}

/// Goes over one step: a block that opens gets its word.
fn go_over(
    alloc: Global,
    graph: &Dependencies,
    marks: &mut [bool],
    path: &mut Path,
    words: &mut Vec<Word>,
    step: &Step,
) -> Result<(), AllocError>
    requires count { length marks.old ≡ length graph.now.needs }
    requires clear { AreClear marks.old }
    requires within { list_all (spec.is_below (length graph.now.needs)) (wishes_in (step.now ∷ []) ++ path.old) ≡ true }
    ensures path { OnOk result (path.new ≡ path_behind path.old step.now) }
    ensures words { OnOk result (WordsBehind graph.now path.old step.now words.old.items words.new.items) }
    ensures clear { OnOk result (AreClear marks.new) }
    ensures count { length marks.new ≡ length marks.old }
{
    match step {
        Step::Opens(wish) => {
            let word = word_of(alloc, graph, marks, path, *wish)?;
            words.push(word)?;
            path.open(*wish)
        }
        Step::Closes => {
            path.close();
            Ok(())
        }
    }
}

/// The words on the blocks of the steps, in order.
pub fn words_of_steps(
    alloc: Global,
    graph: &Dependencies,
    steps: &[Step],
) -> Result<Vec<Word>, AllocError>
    requires within { list_all (spec.is_below (length graph.now.needs)) (wishes_in steps.now) ≡ true }
    ensures { IfOk result (λ words. AreAnswered graph.now steps.now words.items) }
{
    let mut marks = vec![in alloc; false; graph.count()]?;
    words_with(alloc, graph, &mut marks, steps)
}

/// The word of each block; the marks are a place to work in.
fn words_with(
    alloc: Global,
    graph: &Dependencies,
    marks: &mut [bool],
    steps: &[Step],
) -> Result<Vec<Word>, AllocError>
    requires count { length marks.old ≡ length graph.now.needs }
    requires clear { AreClear marks.old }
    requires within { list_all (spec.is_below (length graph.now.needs)) (wishes_in steps.now) ≡ true }
    ensures { IfOk result (λ words. AreAnswered graph.now steps.now words.items) }
{
    let mut path = Path::new(alloc);
    let mut words = Vec::new(alloc);
    for step in steps {
        go_over(alloc, graph, marks, &mut path, &mut words, step)?;
    }
    Ok(words)
}
