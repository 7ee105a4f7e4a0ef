ghost use Rattle.std.specs.Prelude.{◌≡◌, ◌<◌, ◌^◌, [], All, IfOk, length, option_map, slice_index_or};
ghost use Rattle.ut_case.specs.declared.question.Family.TheVariants.{Whole};
ghost use Rattle.ut_case.specs.Numbering.{outers_of};
ghost use Rattle.ut_case.specs.Posed.{IsInnerBlockOf, IsRead};
ghost use Rattle.ut_case.specs.Problem as spec;
ghost use Rattle.ut_case.specs.Questions.{question_on};
ghost use Rattle.report_lines.specs.Reading.{HasClauses, blocks_at, refusal_in, rule_names, tree_of};

use cpp_blocks::Blocks;
use cpp_directives::CppBad;
use kconf_tree::Tree;
use std::alloc::{AllocError, Global};
use ut_case::{Ask, BlockId};
use ut_logic::Text;

/// A problem, as it is read where its report is written.
pub trait Reported {
    /// The problem.
    ghost problem: { Self → spec.Problem };

    /// The tree, where the problem is over one.
    fn tree(&self) -> Option<&Tree>
        ensures { option_map (λ t. t.now.shape) result ≡ tree_of (problem self.now).basis };

    /// The names of the model text, where it is over one; else none.
    fn names(&self) -> &[Text]
        ensures { result.now ≡ rule_names (problem self.now).basis };

    /// How many outer conditions there are, those of Kbuild texts included.
    fn outers(&self) -> u64
        ensures { result ≡ length (outers_of (problem self.now)) };

    /// The text of an outer condition.
    fn outer(&self, n: u64) -> &str
        requires { n < length (outers_of (problem self.now)) }
        ensures { result.now ≡ slice_index_or (outers_of (problem self.now)) n [] };

    /// How many sources there are.
    fn sources(&self) -> u32
        requires { length (problem self.now).sources < 2 ^ 32 }
        ensures { result ≡ length (problem self.now).sources };

    /// The name of a source.
    fn name(&self, file: u32) -> &str
        requires { file < length (problem self.now).sources }
        ensures { result.now ≡ (spec.source_at (problem self.now) file).name };

    /// Why a source is refused, if it is.
    fn refusal(&self, file: u32) -> Option<CppBad>
        requires { file < length (problem self.now).sources }
        ensures { result ≡ refusal_in (spec.source_at (problem self.now) file).read };

    /// The blocks of a source that is not refused; none past the last source. What is read of each source is well formed.
    fn blocks(&self, file: u32) -> Option<&Blocks>
        ensures blocks { option_map (λ b. b.now) result ≡ blocks_at (problem self.now) file }
        ensures formed { All (λ (s : spec.Source). IsRead s.read) (problem self.now).sources };

    /// How many clauses the question on a block over valid configurations has, by which the steps of a derivation are
    /// numbered. The only error is want of memory, which 2 ^ 63 clauses come to as well.
    fn clauses(&self, alloc: Global, block: BlockId, ask: Ask) -> Result<u64, AllocError>
        requires { IsInnerBlockOf (problem self.now) block }
        ensures count { IfOk result (HasClauses (problem self.now) (question_on (problem self.now) block Whole ask)) }
        ensures few { IfOk result (λ n. n < 2 ^ 63) };
}
