// Rows: the right sets that contain a left set, kept in the work list for the pair list. At first no row is kept; then one shared row
// for left sets that the same right sets contain. `checked` keeps a row while its left set is checked.
#![tactic(auto)]

ghost use Rattle.std.specs.Prelude.{◌≡◌};
ghost use Rattle.join_index.specs.Asking.{SomeQuery};
ghost use Rattle.kept_rows.specs.Keeping.{ClearThere, Cleared, WordsRoom, row_stored, ShareThere, Shared, ListThere, ListKept};

use join_check::{Scope, Tally};
use join_index::Layout;
use words::copies::copy_words;
use words::word_at;

pub mod checked;

// How far a walk has come: its counters, and where the kept rows end.
#[derive(Clone, Copy)]
pub struct Progress {
    pub tally: Tally,
    pub top: usize,
}

// No left set has a row.
pub fn clear_rows(work: &mut [u32], lay: Layout, lefts: usize)
    requires { SomeQuery (λ q. ClearThere lay q work.old lefts) }
    ensures { Cleared lay work.old lefts work.new }
{
    let row_starts = lay.row_starts;
    work[row_starts..row_starts + lefts].fill(0);
}

// The row of the left set k is work[from..to].
pub fn keep_row(work: &mut [u32], lay: Layout, k: usize, from: usize, to: usize)
    requires { WordsRoom lay k from to work.old }
    ensures { work.new ≡ row_stored lay k from to work.old }
{
    work[lay.row_starts + k] = from as u32;
    work[lay.row_ends + k] = to as u32;
}

// The left sets in left_order[lo..hi] share one row, work[from..to].
fn share_row(work: &mut [u32], lay: Layout, lo: usize, hi: usize, from: usize, to: usize)
    requires { SomeQuery (λ q. ShareThere lay q work.old lo hi from to) }
    ensures { Shared lay work.old lo hi from to work.new }
{
    let order = lay.left_order;
    for j in lo..hi {
        let k = word_at(work, order + j);
        keep_row(work, lay, k, from, to);
    }
}

// The left sets of a node are contained in its candidates, and in no other right sets: a copy of their list at top is kept as the row
// of each, if it fits. Returns the new top.
pub fn keep_list(work: &mut [u32], lay: Layout, node: &Scope, top: usize) -> usize
    requires { let n = node.now in SomeQuery (λ q. ListThere lay q work.old n.lo n.hi n.from n.to top) }
    ensures { let n = node.now in ListKept lay work.old n.lo n.hi n.from n.to top work.new result }
{
    if node.hi <= node.lo {
        return top;
    }
    if lay.end - top < node.to - node.from {
        return top;
    }
    let end = copy_words(work, node.from, node.to, top);
    share_row(work, lay, node.lo, node.hi, top, end);
    end
}
