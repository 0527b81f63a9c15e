// A left set alone at its node, under Merge: it pairs by path with exactly the right sets that contain it, however many of its ranks
// are left. So they are found at once.
ghost use Rattle.std.specs.Prelude.{true, false, ◌≡◌, List, ℕ, ◌+◌, ◌≤◌};
ghost use Rattle.join_spec.specs.Query.{Query};
ghost use Rattle.join_index.specs.Asking.{SomeQuery, RangeThere};
ghost use Rattle.join_nodes.specs.Narrowing.{SomePath};
ghost use Rattle.join_nodes.specs.Visiting.{RangeVisited};
ghost use Rattle.join_nodes.specs.blocks.Blocks.{Going};
ghost use Rattle.join_nodes.specs.lone.Lone.{Lone};

use crate::WalkSettings;
use crate::blocks::add_paths;
use join_check::keys::key_at;
use join_check::{Scope, Tally};
use join_index::Layout;
use join_spec::Rule;
use kept_rows::Progress;
use kept_rows::checked::record_row;
use words::word_at;

// Whether a node has one left set, it ends within the limit, the rule is Merge, and there is room for its row.
pub fn is_lone(work: &[u32], lay: Layout, st: WalkSettings, node: &Scope, top: usize) -> bool
    requires some_query { SomeQuery (λ q. RangeThere lay q work.now node.now.lo node.now.hi) }
    requires from_le_to { node.now.from ≤ node.now.to }
    requires top_le_end { top ≤ lay.end }
    ensures { let n = node.now in result ≡ true → Lone lay st work.now n.lo n.hi n.from n.to top }
{
    let order = lay.left_order;
    let limit = st.limit;
    let rule = st.rule;
    if node.hi - node.lo != 1 {
        return false;
    }
    if lay.end - top < node.to - node.from {
        return false;
    }
    match rule {
        Rule::Merge => {
            let k = word_at(work, order + node.lo);
            key_at(work, lay, k, limit) == 0
        }
        Rule::Check => false,
        Rule::Weighed(_) => false,
    }
}

// Pairs the lone left set of a node with those right sets listed for it that contain it, and keeps its row.
pub fn pair_lone(
    work: &mut [u32],
    lay: Layout,
    st: WalkSettings,
    node: &Scope,
    p: Progress,
) -> Progress
    requires some_path { let n = node.now in SomePath (λ q path. Going lay st q path work.old n.depth n.lo (n.lo + 1) n.from n.to p) }
    requires lone { let n = node.now in Lone lay st work.old n.lo (n.lo + 1) n.from n.to p.top }
    ensures { let n = node.now in (q : Query) (path : List ℕ) → Going lay st q path work.old n.depth n.lo (n.lo + 1) n.from n.to p
        → RangeVisited lay q st.budget lay.row_starts n.depth work.old work.new n.lo (n.lo + 1) p.tally
        (Some result) }
{
    let order = lay.left_order;
    let k = word_at(work, order + node.lo);
    let none = Tally {
        by_path: 0,
        confirmed: 0,
        dropped: 0,
        false_drops: 0,
    };
    let row = record_row(work, lay, k, node.depth, node.from, node.to, none, p.top);
    let paired = add_paths(p.tally, 1, row.top - p.top);
    Progress {
        tally: paired,
        top: row.top,
    }
}
