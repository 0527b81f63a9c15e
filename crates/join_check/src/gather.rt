// All left sets below a node, gathered by the tree and checked against each of its candidates. The work list is read by its layout.

ghost use Rattle.std.specs.Prelude.{◌+◌, ◌-◌, ◌*◌, ◌<◌};
ghost use Rattle.sets.specs.Limits.{full_words};
ghost use Rattle.join_index.specs.Asking.{SomeQuery, RangeThere};
ghost use Rattle.join_check.specs.Checks.{RangesThere, RangesChecked};
ghost use Rattle.join_check.specs.Counters.{checks_in};

use crate::keys::{key_at, longest_range, range_end};
use crate::{Scope, Tally, check_row};
use join_index::Layout;
use words::word_at;

// Checks the left sets of a node, after their first e ranks, against each of its candidates.
pub fn check_range(work: &[u32], lay: Layout, node: &Scope, e: usize, tally: Tally) -> Tally
    requires some_query { let n = node.now in SomeQuery (λ q. RangesThere lay q work.now e n.lo n.hi n.from n.to) }
    requires from_bound { let n = node.now in checks_in tally + (n.hi - n.lo) * (n.to - n.from) < full_words }
    ensures { let n = node.now in RangesChecked lay work.now e n.lo n.hi n.from n.to tally result }
{
    let order = lay.left_order;
    let mut r = tally;
    for i in node.lo..node.hi {
        let k = word_at(work, order + i);
        r = check_row(work, lay, k, e, node.from, node.to, r);
    }
    r
}

// The depth of the child at left_order[i..hi], whose left sets are alike at depth d: one more, or the limit where they have no rank there.
fn child_depth(work: &[u32], lay: Layout, limit: usize, d: usize, i: usize, hi: usize) -> usize
    requires some_query { SomeQuery (λ q. RangeThere lay q work.now i hi) }
    requires d_lt_limit { d < limit }
    ensures { d < result }
{
    let order = lay.left_order;
    let k = word_at(work, order + i);
    if key_at(work, lay, k, d) == 0 {
        return limit;
    }
    d + 1
}

// The same by the tree: the left sets share their first d ranks, and each range with the same next rank is a child. Every child but the
// longest is gathered by a call; the longest then takes the node's place. A call has at most half of its node's left sets, so calls
// nest only as often as these can be halved, whatever the limit. At the limit all are checked, and so is a left set that is alone.
#[cycle(gather_gather_children)]
pub fn gather(
    work: &[u32],
    lay: Layout,
    limit: usize,
    node: &Scope,
    e: usize,
    tally: Tally,
) -> Tally
    requires some_query { let n = node.now in SomeQuery (λ q. RangesThere lay q work.now e n.lo n.hi n.from n.to) }
    requires from_bound { let n = node.now in checks_in tally + (n.hi - n.lo) * (n.to - n.from) < full_words }
    ensures { let n = node.now in RangesChecked lay work.now e n.lo n.hi n.from n.to tally result }
{
    let mut r = tally;
    let mut at = *node;
    while at.lo < at.hi {
        if limit <= at.depth || at.hi - at.lo == 1 {
            return check_range(work, lay, &at, e, r);
        }
        let end = at.hi;
        let longest = longest_range(work, lay, at.depth, at.lo, end);
        at.hi = longest.lo;
        r = gather_children(work, lay, limit, &at, e, r);
        at.lo = longest.hi;
        at.hi = end;
        r = gather_children(work, lay, limit, &at, e, r);
        at.depth = child_depth(work, lay, limit, at.depth, longest.lo, longest.hi);
        at.lo = longest.lo;
        at.hi = longest.hi;
    }
    r
}

// Gathers the children of a node above the limit: its left sets share as many ranks as its depth.
#[cycle(gather_gather_children)]
fn gather_children(
    work: &[u32],
    lay: Layout,
    limit: usize,
    node: &Scope,
    e: usize,
    tally: Tally,
) -> Tally
    requires d_lt_limit { node.now.depth < limit }
    requires some_query { let n = node.now in SomeQuery (λ q. RangesThere lay q work.now e n.lo n.hi n.from n.to) }
    requires from_bound { let n = node.now in checks_in tally + (n.hi - n.lo) * (n.to - n.from) < full_words }
    ensures { let n = node.now in RangesChecked lay work.now e n.lo n.hi n.from n.to tally result }
{
    let mut r = tally;
    let mut i = node.lo;
    while i < node.hi {
        let j = range_end(work, lay, node.depth, i, node.hi);
        let child = Scope {
            depth: child_depth(work, lay, limit, node.depth, i, j),
            lo: i,
            hi: j,
            ..*node
        };
        r = gather(work, lay, limit, &child, e, r);
        i = j;
    }
    r
}
