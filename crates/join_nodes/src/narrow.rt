// From the candidates before a node to those after it.
ghost use Rattle.std.specs.Prelude.{◌≡◌, List, ℕ};
ghost use Rattle.join_spec.specs.Query.{Query};
ghost use Rattle.join_spec.specs.Node.{last_of};
ghost use Rattle.words.specs.flags.Flags.{Clear};
ghost use Rattle.join_nodes.specs.Narrowing.{SomePath, Candidates, Narrowed};

use join_check::Scope;
use join_index::Layout;
use words::shared::intersect;
use words::{Part, word_at};

// The candidates that hold the last rank of the path too. At depth 1 they are that rank's inverted list; deeper they are put into the
// rank's slot.
pub fn narrow(work: &mut [u32], flags: &mut [u8], lay: Layout, node: &Scope, rank: usize) -> Part
    requires some_path { let n = node.now in SomePath (λ q path. Candidates lay q path work.old n.depth n.from n.to × (rank ≡ last_of path)) }
    requires clear_2 { Clear flags.old }
    ensures narrowed { let n = node.now in (q : Query) (path : List ℕ) → Candidates lay q path work.old n.depth n.from n.to → rank ≡ last_of path
        → Narrowed lay q path n.depth work.old work.new result }
    ensures clear { Clear flags.new }
{
    let offsets = lay.offsets;
    let index = lay.index;
    let slots = lay.slots;
    let first = word_at(work, offsets + rank);
    let last = word_at(work, offsets + rank + 1);
    if node.depth == 1 {
        return Part {
            from: index + first,
            to: index + last,
        };
    }
    let out = slots + first;
    let end = intersect(
        work,
        flags,
        node.from,
        node.to,
        index + first,
        index + last,
        out,
    );
    Part { from: out, to: end }
}
