// The join under Merge over bit rows of the right sets. There each left set is settled by itself, in place order: the right sets that
// hold its path are its candidates, those that contain it are listed, and the others are dropped or false. No tree is walked.
#![tactic(auto)]

use counting_sort::clear;
use inputs::Input;
use join_check::Tally;
use join_check::tally_answer::answer_tally;
use join_spec::{Counts, Settings};
use sets::Refusal;
use signatures::item_bits::position_table;

pub mod left;
pub mod listed;
pub mod paths;
pub mod rows;
pub mod shared;
pub mod signed;

ghost use Rattle.std.specs.Prelude.{◌≡◌, Bool, true, ◌+◌, ◌*◌, ◌≤◌, leb, length};
ghost use Rattle.signatures.specs.item_bits.Bits.{position_table};
ghost use Rattle.inputs.specs.Input.{lent_input, left_sets, right_sets};
ghost use Rattle.join_spec.specs.PairList.{pair_list};
ghost use Rattle.join_spec.specs.Answer.{walk_answer, pairs_after};
ghost use Rattle.join_spec.proofs.Accepted.{Tests};
ghost use Rattle.merge_rows.specs.Meeting.{Ground};
ghost use Rattle.merge_rows.specs.Merging.{merge_query, LeftsRoom, AllMet, MetFits, tally_of, settled};
ghost use Rattle.merge_rows.specs.Merging.{rows_of, words_for, MergeRoom, RowsReady, Sizes};

use crate::left::{meet_left, store_counters};
use crate::rows::fill_rows;

// Where the regions of the work list begin: the rows at 0, then the counters before each left set, three words each, the signatures of the
// right sets, two words each, and a hint for each left set.
#[derive(Clone, Copy)]
pub struct Regions {
    pub counters: usize,
    pub signatures: usize,
    pub hints: usize,
}

// What the left sets up to one have come to: the place in the pair list, or past its end, and the checks by how they ended.
#[derive(Clone, Copy)]
pub struct Met {
    pub at: usize,
    pub confirmed: usize,
    pub dropped: usize,
    pub falses: usize,
}

// The regions for so many items and sets.
fn lay_rows(t: usize, lefts: usize, rights: usize) -> Regions
    requires { Sizes t lefts rights }
    ensures { result ≡ rows_of t lefts rights }
{
    let counters = 2 * (t * ((rights + 63) / 64 + 1));
    let signatures = counters + 3 * lefts;
    let hints = signatures + 2 * rights;
    Regions {
        counters: counters,
        signatures: signatures,
        hints: hints,
    }
}

// Whether the rows of so many items and sets fit a work list.
pub fn rows_fit(t: u32, lefts: usize, rights: usize, words: usize) -> bool
    requires { Sizes t lefts rights }
    ensures { result ≡ leb (words_for t lefts rights) words }
{
    let r = lay_rows(t as usize, lefts, rights);
    r.hints + lefts <= words
}

// The rows of the right sets, none of which has its signature yet, and no hint for any left set.
fn ready_rows(work: &mut [u32], r: Regions, input: &Input)
    requires { RowsReady r (lent_input input.now) work.old }
    ensures { Ground r (lent_input input.now).T (lent_input input.now).right work.new }
{
    fill_rows(work, input.t as usize, &input.right);
    clear(work, r.signatures, 2 * input.right.len() + input.left.len());
}

// The checks of the left sets met so far.
fn checks_of(m: Met) -> usize
    requires { MetFits m }
    ensures { result ≡ m.confirmed + (m.dropped + m.falses) }
{
    m.confirmed + (m.dropped + m.falses)
}

// What all left sets in place order come to; none where the checks pass the budget after one of them.
fn meet_lefts(
    work: &mut [u32],
    r: Regions,
    table: &[u8; 256],
    input: &Input,
    settings: &Settings,
    path: &mut [u16],
    pairs: &mut [u16],
) -> Option<Met>
    requires there { LeftsRoom r (lent_input input.now) settings.now.limit settings.now.ranks.now
        work.old path.old }
    requires positions { table.now ≡ position_table }
    ensures { AllMet
        (merge_query (lent_input input.now) settings.now.limit settings.now.ranks.now)
        settings.now.budget result pairs.old pairs.new }
{
    let mut met = Met {
        at: 0,
        confirmed: 0,
        dropped: 0,
        falses: 0,
    };
    let counters = r.counters;
    let items = input.left.items;
    let budget = settings.budget as usize;
    let mut start: usize = 0;
    for (k, &left_end) in input.left.ends.iter().enumerate() {
        let end = left_end as usize;
        store_counters(work, counters, k, met);
        met = meet_left(
            work,
            r,
            table,
            input,
            settings,
            k,
            &items[start..end],
            path,
            pairs,
            met,
        );
        if budget < checks_of(met) {
            return None;
        }
        start = end;
    }
    Some(met)
}

// The counters of a join by those of its left sets.
fn tally_of(m: Met) -> Tally
    requires { MetFits m }
    ensures { result ≡ tally_of m }
{
    Tally {
        by_path: (m.at / 2 - m.confirmed) as u32,
        confirmed: m.confirmed as u32,
        dropped: m.dropped as u32,
        false_drops: m.falses as u32,
    }
}

// Zeros in the pair list after a refusal.
fn settle(answer: Result<Counts, Refusal>, pairs: &mut [u16])
    ensures { pairs.new ≡ settled answer pairs.old }
{
    match answer {
        Ok(_) => {}
        Err(_) => pairs.fill(0),
    }
}

// The join under Merge of an input that passed the tests before the walk, where its rows fit the work list. The rule in the settings is not
// read.
pub fn merge_sets(
    input: &Input,
    settings: &Settings,
    work: &mut [u32],
    pairs: &mut [u16],
) -> Result<Counts, Refusal>
    requires { MergeRoom (lent_input input.now) settings.now.limit settings.now.ranks.now work.old }
    ensures answer { result ≡ walk_answer
        (merge_query (lent_input input.now) settings.now.limit settings.now.ranks.now)
        settings.now.budget (length pairs.old) }
    ensures pairs { pairs.new ≡ pairs_after result
        (pair_list (left_sets (lent_input input.now)) (right_sets (lent_input input.now))) pairs.old }
{
    let r = lay_rows(input.t as usize, input.left.len(), input.right.len());
    ready_rows(work, r, input);
    let table = position_table();
    let mut path = [0u16; 256];
    let Some(met) = meet_lefts(work, r, &table, input, settings, &mut path, pairs) else {
        pairs.fill(0);
        return Err(Refusal::Spent);
    };
    let answer = answer_tally(Some(tally_of(met)), pairs.len());
    settle(answer, pairs);
    answer
}
