// The pairs of one left set with right sets listed in the work list, written one after the other into the pair list: with all of them,
// or with those that contain it. Each function returns where they end.
ghost use Rattle.std.specs.Prelude.{[], ◌≡◌, ℕ};
ghost use Rattle.lists.specs.Lists.{slice};
ghost use Rattle.lists.specs.Writing.{Put};
ghost use Rattle.join_spec.specs.Query.{Query};
ghost use Rattle.join_spec.specs.PairList.{onto_pair};
ghost use Rattle.join_index.specs.Asking.{SomeQuery, RightThere};
ghost use Rattle.join_pairs.specs.row_pairs.Containing.{row_among, pairs_with, CheckThere};
ghost use Rattle.join_pairs.specs.row_pairs.Writing.{PushRoom, KeptRoom, RowRoom};
ghost use Rattle.words.specs.Merges.{Rising};
ghost use Rattle.kept_rows.specs.Kept.{contained_at};

use join_check::{Checked, Probe, check_probe};
use join_index::Layout;
use words::word_at;

// Writes the pair of left place k and right place s, if it is one.
fn push(pairs: &mut [u16], at: usize, k: usize, s: usize, paired: bool) -> usize
    requires { PushRoom at k s paired pairs.old }
    ensures { Put pairs.old at (onto_pair paired k s []) result pairs.new }
{
    if paired {
        pairs[at] = k as u16;
        pairs[at + 1] = s as u16;
        return at + 2;
    }
    at
}

// Writes the pairs of the left set k with the right sets of a kept row.
pub fn write_kept(row: &[u32], k: usize, pairs: &mut [u16], at: usize) -> usize
    requires { KeptRoom row.now k at pairs.old }
    ensures { Put pairs.old at (pairs_with k row.now) result pairs.new }
{
    let mut n = at;
    for s in row {
        n = push(pairs, n, k, *s as usize, true);
    }
    n
}

// Writes the pairs of the left set k with those right sets listed in work[from..to] that contain it; p is the rest of k, which is
// looked for.
pub fn write_row(
    work: &[u32],
    lay: Layout,
    p: Probe,
    k: usize,
    from: usize,
    to: usize,
    pairs: &mut [u16],
    at: usize,
) -> usize
    requires { SomeQuery (λ q. RowRoom lay q work.now p k from to at pairs.old) }
    ensures { (q : Query) → RowRoom lay q work.now p k from to at pairs.old
        → Put pairs.old at (row_among q k (slice from to work.now)) result pairs.new }
{
    let mut n = at;
    for i in from..to {
        let s = word_at(work, i);
        let paired = is_contained(work, lay, p, s);
        n = push(pairs, n, k, s, paired);
    }
    n
}

// Whether the right set s contains the left set of which p is the rest to look for: yes if the rest has no rank, else it is checked.
pub fn is_contained(work: &[u32], lay: Layout, p: Probe, s: usize) -> bool
    requires some_query { SomeQuery (λ q. RightThere lay q work.now s) }
    requires rising { Rising p.from p.to work.now }
    ensures { (q : Query) (k : ℕ) → CheckThere lay q work.now p k s → result ≡ contained_at q k s }
{
    if p.to <= p.from {
        return true;
    }
    let end = check_probe(work, lay, p, s);
    match end {
        Checked::Dropped => false,
        Checked::FalseDrop => false,
        Checked::Confirmed => true,
    }
}
