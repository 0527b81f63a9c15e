// The visit of a node and of its children: node visit calls the child loop, which calls node visit, and the limit less the depth
// falls. The child with most left sets is left out of these calls: the visit goes on with it in place of the node. Each of the others
// has at most half of the node's left sets, so calls nest only as often as these can be halved, whatever the limit.
ghost use Rattle.std.specs.Prelude.{List, ℕ};
ghost use Rattle.join_spec.specs.Query.{Query};
ghost use Rattle.words.specs.flags.Flags.{Clear};
ghost use Rattle.join_nodes.specs.Narrowing.{SomePath};
ghost use Rattle.join_nodes.specs.Visiting.{Node, NodeVisited, ChildrenAt, ChildrenVisited};

use crate::heaviest::heaviest_range;
use join_check::Scope;
use join_check::keys::range_end;
use join_index::Layout;
use join_nodes::WalkSettings;
use join_nodes::block_checks::check_block;
use join_nodes::decide::decide;
use join_nodes::enter::enter_node;
use kept_rows::Progress;

// Visits a node: its left sets begin with its path, which has as many ranks as its depth. A child's slot is above everything that its
// node still needs, and once the other children are done the node needs nothing more. If the heaviest child is the only one, no call is
// made.
#[cycle(visit_children_visit_node)]
pub fn visit_node(
    work: &mut [u32],
    flags: &mut [u8],
    lay: &Layout,
    st: &WalkSettings,
    node: &Scope,
    p: Progress,
) -> Option<Progress>
    requires some_path { let n = node.now in SomePath (λ q path. Node lay.now st.now q path work.old n.depth n.lo n.hi n.from n.to p) }
    requires clear_2 { Clear flags.old }
    ensures visited { let n = node.now in (q : Query) (path : List ℕ) → Node lay.now st.now q path work.old n.depth n.lo n.hi n.from n.to p
        → NodeVisited lay.now st.now q path work.old work.new n.depth n.lo n.hi p.tally result }
    ensures clear { Clear flags.new }
{
    let rule = st.rule;
    let mut at = *node;
    let mut r = p;
    while at.lo < at.hi {
        if !decide(work, *lay, rule, &at) {
            return check_block(work, *lay, *st, &at, at.depth - 1, r);
        }
        let on = enter_node(work, flags, lay, st, &at, r)?;
        r = on.at;
        if at.hi <= on.mid {
            return Some(r);
        }
        let end = at.hi;
        let heavy = heaviest_range(work, *lay, at.depth, on.mid, end);
        at.lo = on.mid;
        at.from = on.from;
        at.to = on.to;
        if heavy.hi - heavy.lo < end - at.lo {
            at.hi = heavy.lo;
            r = visit_children(work, flags, lay, st, &at, r)?;
            at.lo = heavy.hi;
            at.hi = end;
            r = visit_children(work, flags, lay, st, &at, r)?;
        }
        at.depth += 1;
        at.lo = heavy.lo;
        at.hi = heavy.hi;
    }
    Some(r)
}

// Visits the children of a node: its left sets go on after its path, and the candidates are those after it.
#[cycle(visit_children_visit_node)]
pub fn visit_children(
    work: &mut [u32],
    flags: &mut [u8],
    lay: &Layout,
    st: &WalkSettings,
    node: &Scope,
    p: Progress,
) -> Option<Progress>
    requires some_path { let n = node.now in SomePath (λ q path. ChildrenAt lay.now st.now q path work.old n.depth n.lo n.hi n.from n.to p) }
    requires clear_2 { Clear flags.old }
    ensures visited { let n = node.now in (q : Query) (path : List ℕ) → ChildrenAt lay.now st.now q path work.old n.depth n.lo n.hi n.from n.to p
        → ChildrenVisited lay.now st.now q path work.old work.new n.depth n.lo n.hi p.tally result }
    ensures clear { Clear flags.new }
{
    let mut r = p;
    let mut i = node.lo;
    while i < node.hi {
        let j = range_end(work, *lay, node.depth, i, node.hi);
        let child = Scope {
            depth: node.depth + 1,
            lo: i,
            hi: j,
            ..*node
        };
        r = visit_node(work, flags, lay, st, &child, r)?;
        i = j;
    }
    Some(r)
}
