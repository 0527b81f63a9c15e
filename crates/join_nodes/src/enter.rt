// A node where the walk goes on, up to the visit of its children.
ghost use Rattle.std.specs.Prelude.{List, ℕ};
ghost use Rattle.join_spec.specs.Query.{Query};
ghost use Rattle.words.specs.flags.Flags.{Clear};
ghost use Rattle.join_nodes.specs.Narrowing.{SomePath};
ghost use Rattle.join_nodes.specs.enter.Entering.{GoesOn, NodeEntered};

use crate::WalkSettings;
use crate::blocks::{finish, settle};
use crate::decide::rank_on;
use crate::lone::{is_lone, pair_lone};
use crate::narrow::narrow;
use join_check::Scope;
use join_index::Layout;
use kept_rows::{Progress, keep_list};

// How far the walk came at a node before its children: the left sets from mid on go on to them, with the candidates listed in
// work[from..to]. There are none if the visit is over.
#[derive(Clone, Copy)]
pub struct Entered {
    pub at: Progress,
    pub mid: usize,
    pub from: usize,
    pub to: usize,
}

// Enters a node: narrows its candidates and settles the left sets that have no child to visit. Then no candidate is left, and nothing
// pairs below; or the limit is reached; or the only left set is paired at once; or those that end here are paired by path. None where
// the budget is spent at the limit. It is never inlined, so that its locals take stack once and not for each nested visit (D-53).
#[inline(never)]
pub fn enter_node(
    work: &mut [u32],
    flags: &mut [u8],
    lay: &Layout,
    st: &WalkSettings,
    node: &Scope,
    p: Progress,
) -> Option<Entered>
    requires some_path { let n = node.now in SomePath (λ q path. GoesOn lay.now st.now q path work.old n.depth n.lo n.hi n.from n.to p) }
    requires clear_2 { Clear flags.old }
    ensures entered { let n = node.now in (q : Query) (path : List ℕ) → GoesOn lay.now st.now q path work.old n.depth n.lo n.hi n.from n.to p
        → NodeEntered lay.now st.now q path work.old work.new n.depth n.lo n.hi p result }
    ensures clear { Clear flags.new }
{
    let limit = st.limit;
    let rank = rank_on(work, *lay, node.lo, node.depth - 1);
    let part = narrow(work, flags, *lay, node, rank);
    let after = Scope {
        from: part.from,
        to: part.to,
        ..*node
    };
    if after.to <= after.from {
        let tally = p.tally;
        let top = keep_list(work, *lay, &after, p.top);
        return Some(Entered {
            at: Progress {
                tally: tally,
                top: top,
            },
            mid: after.hi,
            from: after.from,
            to: after.to,
        });
    }
    if limit <= after.depth {
        let at = finish(work, *lay, *st, &after, p)?;
        return Some(Entered {
            at: at,
            mid: after.hi,
            from: after.from,
            to: after.to,
        });
    }
    if is_lone(work, *lay, *st, &after, p.top) {
        let paired = pair_lone(work, *lay, *st, &after, p);
        return Some(Entered {
            at: paired,
            mid: after.hi,
            from: after.from,
            to: after.to,
        });
    }
    let settled = settle(work, *lay, *st, &after, p);
    let at = settled.at;
    Some(Entered {
        at: at,
        mid: settled.mid,
        from: after.from,
        to: after.to,
    })
}
