// The whole walk: partition by partition in rank order, each with the right sets seen at its rank. `partition` visits one, `visit`
// visits a node and all below it, and `heaviest` finds the child with most left sets.
#![tactic(auto)]

ghost use Rattle.join_spec.specs.Query.{Query};
ghost use Rattle.join_index.specs.Asking.{SomeQuery};
ghost use Rattle.words.specs.flags.Flags.{Clear};
ghost use Rattle.join_walk.specs.partition.Partition.{PartVisited};
ghost use Rattle.join_walk.specs.Partitions.{Partitions, WalkReady, WalkDone};

use crate::partition::visit_partition;
use join_check::Tally;
use join_check::keys::range_end;
use join_index::Layout;
use join_nodes::WalkSettings;
use join_nodes::blocks::merged_end;
use kept_rows::{Progress, clear_rows};

pub mod heaviest;
pub mod partition;
pub mod visit;

// Visits the partitions of the left sets in left_order[lo..hi].
fn visit_partitions(
    work: &mut [u32],
    flags: &mut [u8],
    lay: Layout,
    st: WalkSettings,
    lo: usize,
    hi: usize,
    p: Progress,
) -> Option<Progress>
    requires some_query { SomeQuery (λ q. Partitions lay st q work.old lo hi p) }
    requires clear_2 { Clear flags.old }
    ensures visited { (q : Query) → Partitions lay st q work.old lo hi p
        → PartVisited lay st q work.old work.new lo hi p.tally result }
    ensures clear { Clear flags.new }
{
    let mut r = p;
    let mut i = lo;
    while i < hi {
        let j = range_end(work, lay, 0, i, hi);
        r = visit_partition(work, flags, lay, st, i, j, r)?;
        i = j;
    }
    Some(r)
}

// The whole walk over the index of a query. Empty left sets come first in the order, are in no partition and pair with nothing: they
// are passed over.
pub fn walk(
    work: &mut [u32],
    flags: &mut [u8],
    lay: Layout,
    st: WalkSettings,
    lefts: usize,
) -> Option<Progress>
    requires some_query { SomeQuery (λ q. WalkReady lay st q work.old lefts) }
    requires clear_2 { Clear flags.old }
    ensures walked { (q : Query) → WalkReady lay st q work.old lefts
        → WalkDone lay q st.budget work.old work.new result }
    ensures clear { Clear flags.new }
{
    let none = Tally {
        by_path: 0,
        confirmed: 0,
        dropped: 0,
        false_drops: 0,
    };
    clear_rows(work, lay, lefts);
    let begun = Progress {
        tally: none,
        top: lay.rows,
    };
    if lefts == 0 {
        return Some(begun);
    }
    let mid = merged_end(work, lay, 0, 0, lefts);
    visit_partitions(work, flags, lay, st, mid, lefts, begun)
}
