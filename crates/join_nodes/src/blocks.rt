// What becomes of a node's left sets that have no child to visit: they are checked or paired by path, and their rows are kept.
ghost use Rattle.std.specs.Prelude.{List, ℕ, ◌+◌, ◌-◌, ◌≤◌, ◌<◌};
ghost use Rattle.sets.specs.Limits.{max_pairs};
ghost use Rattle.join_spec.specs.Query.{Query};
ghost use Rattle.join_index.specs.Asking.{SomeQuery, RangeThere};
ghost use Rattle.join_spec.specs.Counting.{is_by_path};
ghost use Rattle.join_check.specs.Counters.{checks_in};
ghost use Rattle.kept_rows.specs.Keeping.{ListThere};
ghost use Rattle.kept_rows.specs.checked.Recording.{RowRecordable};
ghost use Rattle.join_nodes.specs.Rows.{path_pairs};
ghost use Rattle.join_nodes.specs.Narrowing.{SomePath};
ghost use Rattle.join_nodes.specs.Visiting.{RangeVisited, Merged};
ghost use Rattle.join_nodes.specs.blocks.Blocks.{MergedEnd, PairsKept, RowFinished, Going, AtLimit, Settles};

use crate::WalkSettings;
use crate::block_checks::{check_block, covers};
use join_check::keys::{key_at, range_end};
use join_check::{Scope, Tally};
use join_index::Layout;
use kept_rows::checked::record_row;
use kept_rows::{Progress, keep_list};
use words::word_at;

// The left sets before mid were paired by path.
#[derive(Clone, Copy)]
pub struct Settled {
    pub mid: usize,
    pub at: Progress,
}

// Where the left sets end that have no rank after depth d; they come first.
pub fn merged_end(work: &[u32], lay: Layout, d: usize, lo: usize, hi: usize) -> usize
    requires { SomeQuery (λ q. RangeThere lay q work.now lo hi) }
    ensures { MergedEnd lay work.now d lo hi result }
{
    let order = lay.left_order;
    let k = word_at(work, order + lo);
    if key_at(work, lay, k, d) != 0 {
        return lo;
    }
    range_end(work, lay, d, lo, hi)
}

// Counts the pairs of m left sets that end at a node with the c candidates after it.
pub fn add_paths(tally: Tally, m: usize, c: usize) -> Tally
    requires { tally.by_path + path_pairs m c is_by_path ≤ max_pairs }
    ensures { Merged m c tally result }
{
    let pairs = m * c;
    Tally {
        by_path: tally.by_path + (pairs as u32),
        confirmed: tally.confirmed,
        dropped: tally.dropped,
        false_drops: tally.false_drops,
    }
}

// Pairs the left sets of a node by path with the right sets listed for it, which become their row.
fn pair_ended(work: &mut [u32], lay: Layout, node: &Scope, p: Progress) -> Progress
    requires some_query { let n = node.now in SomeQuery (λ q. ListThere lay q work.old n.lo n.hi n.from n.to p.top) }
    requires lo_le_hi { node.now.lo ≤ node.now.hi }
    requires is_by_path_bound { let n = node.now in p.tally.by_path + path_pairs (n.hi - n.lo) (n.to - n.from) is_by_path ≤ max_pairs }
    ensures { let n = node.now in PairsKept lay work.old n.lo n.hi n.from n.to p work.new result }
{
    let merged = add_paths(p.tally, node.hi - node.lo, node.to - node.from);
    let top = keep_list(work, lay, node, p.top);
    Progress {
        tally: merged,
        top: top,
    }
}

// Pairs the left sets that end at a node; they come first.
pub fn settle(work: &mut [u32], lay: Layout, st: WalkSettings, node: &Scope, p: Progress) -> Settled
    requires some_path { let n = node.now in SomePath (λ q path. Going lay st q path work.old n.depth n.lo n.hi n.from n.to p) }
    requires lo_lt_hi { node.now.lo < node.now.hi }
    ensures { let n = node.now in Settles lay st work.old n.depth n.lo n.hi n.from n.to p work.new result }
{
    let mid = merged_end(work, lay, node.depth, node.lo, node.hi);
    let ended = Scope { hi: mid, ..*node };
    let at = pair_ended(work, lay, &ended, p);
    Settled { mid: mid, at: at }
}

// Checks the left set k, after the ranks of its node, against the right sets listed for it and keeps its row. No check is made if all
// of them together exceed the budget.
fn finish_row(
    work: &mut [u32],
    lay: Layout,
    st: WalkSettings,
    node: &Scope,
    k: usize,
    p: Progress,
) -> Option<Progress>
    requires some_query { let n = node.now in SomeQuery (λ q. RowRecordable lay q work.old k n.depth n.from n.to p.top) }
    requires from_le_to { node.now.from ≤ node.now.to }
    requires tally_bound { checks_in p.tally ≤ st.budget }
    ensures { let n = node.now in RowFinished lay work.old st.budget k n.depth n.from n.to p work.new result }
{
    if !covers(st.budget, p.tally, node.to - node.from) {
        return None;
    }
    let r = record_row(work, lay, k, node.depth, node.from, node.to, p.tally, p.top);
    Some(r)
}

// One left set of a node at the limit, left_order[i]: paired by path if it ends there, else checked; its row is kept if there is room.
fn finish_one(
    work: &mut [u32],
    lay: Layout,
    st: WalkSettings,
    node: &Scope,
    i: usize,
    p: Progress,
) -> Option<Progress>
    requires { let n = node.now in SomePath (λ q path. AtLimit lay st q path work.old n.depth i (i + 1) n.from n.to p) }
    ensures { let n = node.now in (q : Query) (path : List ℕ) → AtLimit lay st q path work.old n.depth i (i + 1) n.from n.to p
        → RangeVisited lay q st.budget lay.row_starts n.depth work.old work.new i (i + 1) p.tally result }
{
    let order = lay.left_order;
    let k = word_at(work, order + i);
    if key_at(work, lay, k, node.depth) == 0 {
        let one = Scope {
            lo: i,
            hi: i + 1,
            ..*node
        };
        let at = pair_ended(work, lay, &one, p);
        return Some(at);
    }
    if lay.end - p.top < node.to - node.from {
        let one = Scope {
            lo: i,
            hi: i + 1,
            ..*node
        };
        return check_block(work, lay, st, &one, node.depth, p);
    }
    finish_row(work, lay, st, node, k, p)
}

// The left sets at the limit, one by one, up to the first whose checks would exceed the budget.
pub fn finish(
    work: &mut [u32],
    lay: Layout,
    st: WalkSettings,
    node: &Scope,
    p: Progress,
) -> Option<Progress>
    requires { let n = node.now in SomePath (λ q path. AtLimit lay st q path work.old n.depth n.lo n.hi n.from n.to p) }
    ensures { let n = node.now in (q : Query) (path : List ℕ) → AtLimit lay st q path work.old n.depth n.lo n.hi n.from n.to p
        → RangeVisited lay q st.budget lay.row_starts n.depth work.old work.new n.lo n.hi p.tally result }
{
    let mut r = p;
    for i in node.lo..node.hi {
        r = finish_one(work, lay, st, node, i, r)?;
    }
    Some(r)
}
