// One partition of the walk: the left sets with the same first rank. It is a node of depth 1 that begins with the right sets seen at
// that rank.
ghost use Rattle.std.specs.Prelude.{ℕ};
ghost use Rattle.join_spec.specs.Query.{Query};
ghost use Rattle.words.specs.flags.Flags.{Clear};
ghost use Rattle.join_walk.specs.partition.Partition.{SomeRank, Partition, PartVisited};

use crate::visit::visit_node;
use join_check::Scope;
use join_check::keys::{is_held, key_at};
use join_index::{Layout, asks_seen};
use join_nodes::WalkSettings;
use kept_rows::{Progress, keep_list};
use words::word_at;

// Visits the partition left_order[lo..hi]. The right sets with a least rank up to its rank are seen by now: they are first by least
// rank. Merge doesn't ask for them, and if no right set holds the rank of the partition it has nothing to visit.
pub fn visit_partition(
    work: &mut [u32],
    flags: &mut [u8],
    lay: Layout,
    st: WalkSettings,
    lo: usize,
    hi: usize,
    p: Progress,
) -> Option<Progress>
    requires some_rank { SomeRank (λ q r. Partition lay st q work.old lo hi p r) }
    requires clear_2 { Clear flags.old }
    ensures visited { (q : Query) (r : ℕ) → Partition lay st q work.old lo hi p r
        → PartVisited lay st q work.old work.new lo hi p.tally result }
    ensures clear { Clear flags.new }
{
    let order = lay.left_order;
    let offsets = lay.least_offsets;
    let first = lay.by_least;
    let none = lay.slots;
    let rule = st.rule;
    let k = word_at(work, order + lo);
    let key = key_at(work, lay, k, 0);
    if asks_seen(rule) {
        let seen = word_at(work, offsets + key);
        let node = Scope {
            depth: 1,
            lo: lo,
            hi: hi,
            from: first,
            to: first + seen,
        };
        return visit_node(work, flags, &lay, &st, &node, p);
    }
    let node = Scope {
        depth: 1,
        lo: lo,
        hi: hi,
        from: none,
        to: none,
    };
    if is_held(work, lay, key - 1) {
        return visit_node(work, flags, &lay, &st, &node, p);
    }
    let tally = p.tally;
    let top = keep_list(work, lay, &node, p.top);
    Some(Progress {
        tally: tally,
        top: top,
    })
}
