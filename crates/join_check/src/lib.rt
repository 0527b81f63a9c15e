// The checks of left sets against right sets, and the counters that they raise. `keys` reads what parts the left sets off the index;
// `gather` checks a whole subtree; `tally_answer` makes the answer of a join from the counters. The work list is read by its layout.
#![tactic(auto)]

ghost use Rattle.std.specs.Prelude.{◌≡◌, ◌+◌, ◌-◌, ◌*◌, ◌<◌};
ghost use Rattle.sets.specs.Limits.{full_words};
ghost use Rattle.words.specs.Merges.{Rising};
ghost use Rattle.join_spec.specs.Query.{Query};
ghost use Rattle.join_index.specs.Asking.{SomeQuery, LeftThere, RightThere};
ghost use Rattle.join_check.specs.Checks.{RowThere, RowChecked};
ghost use Rattle.join_check.specs.Counters.{checks_in};
ghost use Rattle.join_check.specs.Probes.{Probed, outcome_of, probe_outcome, OneChecked};

use join_index::Layout;
use signatures::double_at;
use words::subsets::subset_words;
use words::word_at;

pub mod gather;
pub mod keys;
pub mod tally_answer;

// The counters of a walk: pairs by path, and the checks by how they ended.
#[derive(Clone, Copy)]
pub struct Tally {
    pub by_path: u32,
    pub confirmed: u32,
    pub dropped: u32,
    pub false_drops: u32,
}

// What a node of the walk spans: its depth, its left sets in left_order[lo..hi], and its candidates in work[from..to].
#[derive(Clone, Copy)]
pub struct Scope {
    pub depth: usize,
    pub lo: usize,
    pub hi: usize,
    pub from: usize,
    pub to: usize,
}

// From so many ranks on, a left set with none on the merged path is compared from its lowest rank up.
const MANY_RANKS: usize = 16;

// What remains of a left set to be checked: its signature, and where its ranks off the merged path are. They are compared from the
// lowest up, or from the highest down.
#[derive(Clone, Copy)]
pub struct Probe {
    pub signature: u64,
    pub from: usize,
    pub to: usize,
    pub upward: bool,
}

// How a check ends: by the signatures, or by the ranks.
#[derive(Clone, Copy)]
pub enum Checked {
    Dropped,
    FalseDrop,
    Confirmed,
}

// Whether a left set with so many ranks is compared from the lowest up, after its first e. A right set that is known to hold the first
// ranks, which fewest hold, mostly holds the next too; then the highest tell sooner.
fn is_upward(e: usize, ranks: usize) -> bool {
    e == 0 && MANY_RANKS <= ranks
}

// What remains of the left set k after its first e ranks; no rank if it has fewer.
pub fn probe_left(work: &[u32], lay: Layout, k: usize, e: usize) -> Probe
    requires { SomeQuery (λ q. LeftThere lay q work.now k) }
    ensures { Probed lay work.now k e result }
{
    let starts = lay.left_starts;
    let ranks = lay.left_ranks;
    let signatures = lay.left_signatures;
    let signature = double_at(work, signatures + 2 * k);
    let from = ranks + word_at(work, starts + k);
    let to = ranks + word_at(work, starts + k + 1);
    if to - from <= e {
        return Probe {
            signature: signature,
            from: to,
            to: to,
            upward: false,
        };
    }
    let upward = is_upward(e, to - from);
    Probe {
        signature: signature,
        from: from + e,
        to: to,
        upward: upward,
    }
}

// Checks what remains of a left set against the right set s: signatures first, then ranks.
pub fn check_probe(work: &[u32], lay: Layout, p: Probe, s: usize) -> Checked
    requires some_query { SomeQuery (λ q. RightThere lay q work.now s) }
    requires rising { Rising p.from p.to work.now }
    ensures { (q : Query) → RightThere lay q work.now s
        → outcome_of result ≡ probe_outcome q work.now p s }
{
    let starts = lay.right_starts;
    let ranks = lay.right_ranks;
    let signatures = lay.right_signatures;
    let left = p.signature;
    let right = double_at(work, signatures + 2 * s);
    let common = left & right;
    if common != left {
        return Checked::Dropped;
    }
    let from = ranks + word_at(work, starts + s);
    let to = ranks + word_at(work, starts + s + 1);
    if subset_words(work, p.upward, p.from, p.to, from, to) {
        return Checked::Confirmed;
    }
    Checked::FalseDrop
}

// The same, and counts the check.
pub fn check_one(work: &[u32], lay: Layout, p: Probe, s: usize, tally: Tally) -> Tally
    requires some_query { SomeQuery (λ q. RightThere lay q work.now s) }
    requires rising { Rising p.from p.to work.now }
    requires tally_bound { checks_in tally + 1 < full_words }
    ensures { OneChecked lay work.now p s tally result }
{
    let end = check_probe(work, lay, p, s);
    match end {
        Checked::Dropped => Tally {
            by_path: tally.by_path,
            confirmed: tally.confirmed,
            dropped: tally.dropped + 1,
            false_drops: tally.false_drops,
        },
        Checked::FalseDrop => Tally {
            by_path: tally.by_path,
            confirmed: tally.confirmed,
            dropped: tally.dropped,
            false_drops: tally.false_drops + 1,
        },
        Checked::Confirmed => Tally {
            by_path: tally.by_path,
            confirmed: tally.confirmed + 1,
            dropped: tally.dropped,
            false_drops: tally.false_drops,
        },
    }
}

// Checks the left set k, after its first e ranks, against each right set listed in work[from..to].
pub fn check_row(
    work: &[u32],
    lay: Layout,
    k: usize,
    e: usize,
    from: usize,
    to: usize,
    tally: Tally,
) -> Tally
    requires some_query { SomeQuery (λ q. RowThere lay q work.now k e from to) }
    requires from_bound { checks_in tally + (to - from) < full_words }
    ensures { RowChecked lay work.now k e from to tally result }
{
    let p = probe_left(work, lay, k, e);
    let mut r = tally;
    for i in from..to {
        let s = word_at(work, i);
        r = check_one(work, lay, p, s, r);
    }
    r
}
