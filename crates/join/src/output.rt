// The pair list after a walk, by the join's answer: its pairs, or zeros.
ghost use Rattle.std.specs.Prelude.{◌≡◌};
ghost use Rattle.join_spec.specs.PairList.{pair_list};
ghost use Rattle.join_spec.specs.Query.{Query};
ghost use Rattle.join_spec.specs.Answer.{pairs_after};
ghost use Rattle.words.specs.flags.Flags.{Clear};
ghost use Rattle.join_index.specs.Asking.{SomeQuery};
ghost use Rattle.join.specs.output.Output.{AnswerRoom};

use join_index::Layout;
use join_pairs::write_pairs;
use join_spec::Counts;
use sets::Refusal;

// Writes the pair list of a join that answers with counts, and zeros after a refusal.
pub fn write_answer(
    work: &mut [u32],
    flags: &mut [u8],
    lay: Layout,
    lefts: usize,
    answer: Result<Counts, Refusal>,
    pairs: &mut [u16],
)
    requires some_query { SomeQuery (λ q. AnswerRoom lay q work.old lefts answer pairs.old) }
    requires clear { Clear flags.old }
    ensures { (q : Query) → AnswerRoom lay q work.old lefts answer pairs.old
        → pairs.new ≡ pairs_after answer (pair_list q.lefts q.rights) pairs.old }
{
    match answer {
        Ok(_) => write_pairs(work, flags, lay, lefts, pairs),
        Err(_) => pairs.fill(0),
    }
}
