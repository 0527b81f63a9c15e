// The text of a join's answer, written into a lent list of bytes: the counts, the repeats and a line for each pair, or why there is no
// list. It is defined in specs/.
ghost use Rattle.std.specs.Prelude.{◌≤◌, length};
ghost use Rattle.lists.specs.Writing.{Put};
ghost use Rattle.text.specs.answer_text.AnswerText.{answer_text};
ghost use Rattle.text.specs.answer_text.Inner.{found_pairs, AnswerFits};

use crate::counts_line::put_counts;
use crate::number_lines::{put_refusal, put_repeats};
use crate::pair_lines::put_pairs;
use join_spec::Counts;
use sets::Refusal;
use tag_file::Repeats;

// The text of an answer, at the beginning, with the pair list that came with it.
pub fn put_answer(
    text: &mut [u8],
    answer: Result<Counts, Refusal>,
    repeats: Repeats,
    pairs: &[u16],
    left_numbers: &[u16],
    right_numbers: &[u16],
) -> usize
    requires { AnswerFits answer pairs.now left_numbers.now right_numbers.now text.old }
    ensures put { Put text.old 0
        (answer_text repeats left_numbers.now right_numbers.now (found_pairs answer pairs.now) answer)
        result text.new }
    ensures upper_bound { result ≤ length text.old }
{
    match answer {
        Ok(counts) => {
            let n = put_counts(text, counts);
            let m = put_repeats(text, n, repeats);
            let places = 2 * (counts.pairs as usize);
            put_pairs(text, m, &pairs[..places], left_numbers, right_numbers)
        }
        Err(why) => put_refusal(text, why),
    }
}
