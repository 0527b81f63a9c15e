// The set containment join, which document 01 calls the run: its tests (`validate`), the index, the walk, its answer
// (`join_check::tally_answer`) and the pair list (`output`). The same with the rule as a number is for the C boundary.
#![tactic(auto)]

ghost use Rattle.std.specs.Prelude.{◌≡◌, length};
ghost use Rattle.join_spec.specs.PairList.{pair_list};
ghost use Rattle.inputs.specs.Input.{lent_input, left_sets, right_sets};
ghost use Rattle.join_spec.specs.Query.{lent_settings, query_of};
ghost use Rattle.join_spec.specs.Answer.{room_of, walk_answer, pairs_after, JoinCall, RunCall};
ghost use Rattle.merge_rows.specs.Merging.{Sizes};
ghost use Rattle.join.specs.Ready.{Accepted, takes_rows};
ghost use Rattle.join.specs.Numbered.{rule_of, numbered_answer};

use crate::output::write_answer;
use crate::validate::{test_join, test_rule};
use inputs::Input;
use join_check::tally_answer::answer_tally;
use join_index::Layout;
use join_index::build::build;
use join_nodes::WalkSettings;
use join_spec::{Counts, Rule, Settings, Weights};
use join_walk::walk;
use merge_rows::{merge_sets, rows_fit};
use sets::Refusal;
use words::flags::clear_flags;

pub mod output;
pub mod validate;

// The join of an input that passed its tests, by the walk: the index, the walk, the answer by its counters, and the pair list.
fn walk_sets(
    input: &Input,
    settings: &Settings,
    work: &mut [u32],
    pairs: &mut [u16],
) -> Result<Counts, Refusal>
    requires { Accepted (lent_input input.now) (lent_settings settings.now) work.old }
    ensures answer { result ≡ walk_answer (query_of (lent_input input.now) (lent_settings settings.now))
        settings.now.budget (length pairs.old) }
    ensures pairs { pairs.new ≡ pairs_after result
        (pair_list (left_sets (lent_input input.now)) (right_sets (lent_input input.now))) pairs.old }
{
    let lefts = input.left.ends.len();
    let lay = build(input, settings, work);
    let st = WalkSettings {
        limit: settings.limit as usize,
        rule: settings.rule,
        budget: settings.budget,
    };
    let mut flags = clear_flags();
    let walked = walk(work, &mut flags, lay, st, lefts);
    let made = walked.map(|at| at.tally);
    let answer = answer_tally(made, pairs.len());
    write_answer(work, &mut flags, lay, lefts, answer, pairs);
    answer
}

// Whether the left sets are settled one by one over bit rows: under Merge, where the rows of so many items and sets fit so many words.
fn takes_rows(rule: Rule, t: u32, lefts: usize, rights: usize, words: usize) -> bool
    requires { Sizes t lefts rights }
    ensures { result ≡ takes_rows rule t lefts rights words }
{
    match rule {
        Rule::Merge => rows_fit(t, lefts, rights, words),
        Rule::Check => false,
        Rule::Weighed(_) => false,
    }
}

// The join of an input that passed the tests before the walk: over bit rows or by the walk.
fn join_ready(
    input: &Input,
    settings: &Settings,
    work: &mut [u32],
    pairs: &mut [u16],
) -> Result<Counts, Refusal>
    requires { Accepted (lent_input input.now) (lent_settings settings.now) work.old }
    ensures answer { result ≡ walk_answer (query_of (lent_input input.now) (lent_settings settings.now))
        settings.now.budget (length pairs.old) }
    ensures pairs { pairs.new ≡ pairs_after result
        (pair_list (left_sets (lent_input input.now)) (right_sets (lent_input input.now))) pairs.old }
{
    let rows = takes_rows(
        settings.rule,
        input.t,
        input.left.ends.len(),
        input.right.ends.len(),
        work.len(),
    );
    if rows {
        return merge_sets(input, settings, work, pairs);
    }
    walk_sets(input, settings, work, pairs)
}

// The join of two collections under its settings, over a lent work list and pair list.
pub fn run(
    input: &Input,
    settings: &Settings,
    work: &mut [u32],
    pairs: &mut [u16],
) -> Result<Counts, Refusal>
    ensures { RunCall (lent_input input.now) (lent_settings settings.now) work.old pairs.old work.new pairs.new result }
{
    test_join(input, settings, work.len())?;
    join_ready(input, settings, work, pairs)
}

// The rule of a number: 0 Merge, 1 Check, else Weighed.
fn rule_of(number: u32, weights: Weights) -> Rule
    ensures { result ≡ rule_of number weights }
{
    if number == 0 {
        return Rule::Merge;
    }
    if number == 1 {
        return Rule::Check;
    }
    Rule::Weighed(weights)
}

// The join with its rule as a number; one above 2 is refused as a bad setting.
pub fn run_numbered(
    input: &Input,
    limit: u32,
    ranks: &[u16],
    budget: u32,
    number: u32,
    weights: Weights,
    work: &mut [u32],
    pairs: &mut [u16],
) -> Result<Counts, Refusal>
    ensures { JoinCall (numbered_answer (lent_input input.now) limit ranks.now budget number weights (room_of work.old pairs.old))
        (lent_input input.now) work.old pairs.old work.new pairs.new result }
{
    test_rule(number)?;
    let settings = Settings {
        limit,
        ranks,
        budget,
        rule: rule_of(number, weights),
    };
    run(input, &settings, work, pairs)
}
