// The answer of a join after its walk, by the walk's counters: 8 if the budget was spent, 9 if the pair list is too short, else the
// six counts.
ghost use Rattle.std.specs.Prelude.{◌≡◌};
ghost use Rattle.join_check.specs.tally_answer.Answering.{SumsFit, tally_answer};

use crate::Tally;
use join_spec::Counts;
use sets::Refusal;

// The answer of a walk that has these counters, or none where it was spent, with so many places in the pair list.
pub fn answer_tally(made: Option<Tally>, places: usize) -> Result<Counts, Refusal>
    requires { SumsFit made }
    ensures { result ≡ tally_answer made places }
{
    let Some(tally) = made else {
        return Err(Refusal::Spent);
    };
    let count = tally.by_path + tally.confirmed;
    if places < 2 * (count as usize) {
        return Err(Refusal::ShortPairs);
    }
    Ok(Counts {
        pairs: count,
        by_path: tally.by_path,
        confirmed: tally.confirmed,
        checks: tally.dropped + (tally.false_drops + tally.confirmed),
        dropped: tally.dropped,
        false_drops: tally.false_drops,
    })
}
