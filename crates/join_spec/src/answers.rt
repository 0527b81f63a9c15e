// The answer of a join as words at the C boundary.
ghost use Rattle.std.specs.Prelude.{◌≡◌};
ghost use Rattle.join_spec.specs.Answer.{join_words};

use crate::Counts;
use sets::{Refusal, head_of};

// The words of a join's answer at the C boundary.
pub fn join_words(answer: Result<Counts, Refusal>) -> [u64; 9]
    ensures { result ≡ join_words answer }
{
    match answer {
        Ok(counts) => [
            0,
            0,
            0,
            counts.pairs as u64,
            counts.by_path as u64,
            counts.confirmed as u64,
            counts.checks as u64,
            counts.dropped as u64,
            counts.false_drops as u64,
        ],
        Err(why) => {
            let head = head_of(why);
            [head.number, head.first, head.second, 0, 0, 0, 0, 0, 0]
        }
    }
}
