// The pairs of one left set, looked for: its candidates are found in the index, and those that contain it are written into the pair
// list.
ghost use Rattle.words.specs.flags.Flags.{Clear};
ghost use Rattle.join_index.specs.Asking.{SomeQuery};
ghost use Rattle.join_pairs.specs.left_search.LeftRows.{LeftRoom, LeftWritten};

use crate::row_pairs::write_row;
use crate::shortlists::{find_candidates, pivot};
use join_check::{Probe, probe_left};
use join_index::Layout;

// Writes the pairs of the left set k with all right sets that contain it, and returns where they end. An empty left set has none.
pub fn search_left(
    work: &mut [u32],
    flags: &mut [u8],
    lay: Layout,
    k: usize,
    pairs: &mut [u16],
    at: usize,
) -> usize
    requires some_query { SomeQuery (λ q. LeftRoom lay q work.old k at pairs.old) }
    requires clear_2 { Clear flags.old }
    ensures wrote { LeftWritten lay work.old k at pairs.old work.new
        pairs.new result }
    ensures clear { Clear flags.new }
{
    let p = probe_left(work, lay, k, 0);
    if p.to <= p.from {
        return at;
    }
    let list = &work[..];
    let r = pivot(list, lay, &list[p.from..p.to]);
    let c = find_candidates(work, flags, lay, p.from, p.to, r);
    let rest = Probe {
        signature: p.signature,
        from: c.rest,
        to: p.to,
        upward: false,
    };
    write_row(work, lay, rest, k, c.from, c.to, pairs, at)
}
