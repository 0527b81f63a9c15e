// The tests of a join before its walk, in the table's order: settings, sets of each side, work list. And the test of a rule's number.
ghost use Rattle.std.specs.Prelude.{◌≡◌, ltb};
ghost use Rattle.sets.specs.Refusals.{refuse_if};
ghost use Rattle.sets.specs.declared.Refusal.TheVariants.{BadSettings};
ghost use Rattle.inputs.specs.Input.{lent_input};
ghost use Rattle.join_spec.specs.Answer.{bad_settings, join_tests};

use inputs::{Input, test_sets, test_work};
use join_spec::Settings;
use sets::{MAX_ITEMS, MAX_LIMIT, Refusal};
use validation::permutations::is_permutation;

// Whether T, a limit or a rank table is refused.
fn bad_settings(t: u32, limit: u32, ranks: &[u16]) -> bool
    ensures { result ≡ bad_settings t limit ranks.now }
{
    if MAX_ITEMS < t {
        return true;
    }
    if limit == 0 {
        return true;
    }
    if MAX_LIMIT < limit {
        return true;
    }
    !is_permutation(t, ranks)
}

// The tests before the walk, in the table's order.
pub fn test_join(input: &Input, settings: &Settings, words: usize) -> Result<(), Refusal>
    ensures { result ≡ join_tests (lent_input input.now) settings.now.limit settings.now.ranks.now words }
{
    if bad_settings(input.t, settings.limit, settings.ranks) {
        return Err(Refusal::BadSettings);
    }
    test_sets(input)?;
    test_work(input, words)
}

// The test of a rule's number: one above 2 is a bad setting.
pub fn test_rule(number: u32) -> Result<(), Refusal>
    ensures { result ≡ refuse_if (ltb 2 number) BadSettings }
{
    if 2 < number {
        return Err(Refusal::BadSettings);
    }
    Ok(())
}
