// The heaviest child of a node, with which its visit goes on, or none.
ghost use Rattle.join_index.specs.Asking.{SomeQuery, RangeThere};
ghost use Rattle.join_walk.specs.heaviest.Heaviest.{RangeChosen};

use join_check::keys::{Span, longest_range};
use join_index::Layout;

// Below this depth no child is preferred. Visits nest at most this often there, whatever the limit. And the nodes with many children
// are there, whose ranges would be looked for twice.
const SHALLOW: usize = 16;

// The longest range of left_order[lo..hi] with the same key at depth d. At a shallow depth none, except an only left set: most nodes
// have one, and it costs no search.
pub fn heaviest_range(work: &[u32], lay: Layout, d: usize, lo: usize, hi: usize) -> Span
    requires { SomeQuery (λ q. RangeThere lay q work.now lo hi) }
    ensures { RangeChosen lay work.now d lo hi result }
{
    if hi - lo == 1 {
        return Span { lo: lo, hi: hi };
    }
    if d < SHALLOW {
        return Span { lo: hi, hi: hi };
    }
    longest_range(work, lay, d, lo, hi)
}
