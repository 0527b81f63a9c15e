// The checks of a block of left sets against every right set of a list, made only if the budget covers all of them.
ghost use Rattle.std.specs.Prelude.{◌≤◌};
ghost use Rattle.join_index.specs.Asking.{SomeQuery};
ghost use Rattle.join_check.specs.Checks.{RangesThere};
ghost use Rattle.join_check.specs.Counters.{checks_in};
ghost use Rattle.join_nodes.specs.block_checks.BlockChecks.{Covered, Small, Blocked};

use crate::WalkSettings;
use join_check::gather::gather;
use join_check::{Scope, Tally};
use join_index::Layout;
use kept_rows::Progress;

// Whether the budget covers so many more checks.
pub fn covers(budget: u32, tally: Tally, checks: usize) -> bool
    requires { checks_in tally ≤ budget }
    ensures { Covered budget tally checks result }
{
    let made = tally.confirmed + tally.dropped + tally.false_drops;
    let spare = budget - made;
    checks <= (spare as usize)
}

// Checks the left sets of a node, which share its ranks, after e ranks against every candidate. No check is made if all of them
// together exceed the budget.
pub fn check_block(
    work: &[u32],
    lay: Layout,
    st: WalkSettings,
    node: &Scope,
    e: usize,
    p: Progress,
) -> Option<Progress>
    requires some_query { let n = node.now in SomeQuery (λ q. RangesThere lay q work.now e n.lo n.hi n.from n.to) }
    requires small { let n = node.now in Small st.budget n.lo n.hi n.from n.to p.tally }
    ensures { let n = node.now in Blocked lay work.now st.budget e n.lo n.hi n.from n.to p result }
{
    let limit = st.limit;
    let tally = p.tally;
    let checks = (node.hi - node.lo) * (node.to - node.from);
    if !covers(st.budget, tally, checks) {
        return None;
    }
    let r = gather(work, lay, limit, node, e, tally);
    Some(Progress {
        tally: r,
        top: p.top,
    })
}
