// What the walk reads off the index to split the left sets and to weigh a node: the key of a left set at a depth, where a range with
// the same key ends, the longest such range, how many right sets are seen, and whether any holds a rank. The work list is read by its
// layout.
ghost use Rattle.std.specs.Prelude.{◌≡◌, [], false, cond, ◌-◌, ◌≤◌, ltb};
ghost use Rattle.join_spec.specs.Query.{Query};
ghost use Rattle.join_index.specs.Ground.{inverted_list};
ghost use Rattle.join_index.specs.Asking.{SomeQuery, RankThere, LeftThere, RangeThere, RightThere, PlacesThere};
ghost use Rattle.join_index.specs.Grouping.{key_at, right_at};
ghost use Rattle.join_index.specs.Ranges.{RangeEnd};
ghost use Rattle.lists.specs.Lists.{count, slice};
ghost use Rattle.join_spec.specs.Node.{seen};
ghost use Rattle.join_check.specs.keys.Borders.{RangeFound};

use join_index::Layout;
use words::word_at;

// Whether a right set holds the rank r.
pub fn is_held(work: &[u32], lay: Layout, r: usize) -> bool
    requires { SomeQuery (λ q. RankThere lay q work.now r) }
    ensures { (q : Query) → RankThere lay q work.now r → result ≡ false → inverted_list q r ≡ [] }
{
    let offsets = lay.offsets;
    word_at(work, offsets + r) < word_at(work, offsets + r + 1)
}

// The key of the left set k at depth d: 0 if it has no further rank, else one more than the rank.
pub fn key_at(work: &[u32], lay: Layout, k: usize, d: usize) -> usize
    requires { SomeQuery (λ q. LeftThere lay q work.now k) }
    ensures { (q : Query) → LeftThere lay q work.now k → result ≡ key_at q d k }
{
    let starts = lay.left_starts;
    let ranks = lay.left_ranks;
    let from = word_at(work, starts + k);
    let to = word_at(work, starts + k + 1);
    if to - from <= d {
        return 0;
    }
    word_at(work, ranks + from + d) + 1
}

// Where the range of the left order ends that begins at i, of left sets with the same key at depth d.
pub fn range_end(work: &[u32], lay: Layout, d: usize, i: usize, hi: usize) -> usize
    requires { SomeQuery (λ q. RangeThere lay q work.now i hi) }
    ensures { RangeEnd lay work.now d i hi result }
{
    let order = lay.left_order;
    let first = word_at(work, order + i);
    let key = key_at(work, lay, first, d);
    for j in i + 1..hi {
        let k = word_at(work, order + j);
        if key_at(work, lay, k, d) != key {
            return j;
        }
    }
    hi
}

// Whether the right set s is seen.
fn is_seen(work: &[u32], lay: Layout, s: usize, r: usize) -> bool
    requires { SomeQuery (λ q. RightThere lay q work.now s) }
    ensures { (q : Query) → RightThere lay q work.now s → result ≡ seen r (right_at q s) }
{
    let starts = lay.right_starts;
    let ranks = lay.right_ranks;
    let from = word_at(work, starts + s);
    let to = word_at(work, starts + s + 1);
    if to <= from {
        return false;
    }
    let least = word_at(work, ranks + from);
    least <= r
}

// How many of the right sets listed in work[from..to] are seen.
pub fn count_seen(work: &[u32], lay: Layout, from: usize, to: usize, r: usize) -> usize
    requires { SomeQuery (λ q. PlacesThere lay q work.now from to) }
    ensures { (q : Query) → PlacesThere lay q work.now from to
        → result ≡ count (λ s. seen r (right_at q s)) (slice from to work.now) }
{
    let mut n: usize = 0;
    for i in from..to {
        let s = word_at(work, i);
        n += usize::from(is_seen(work, lay, s, r));
    }
    n
}

// The range left_order[lo..hi].
#[derive(Clone, Copy)]
pub struct Span {
    pub lo: usize,
    pub hi: usize,
}

// The longer of two, the first if they are alike.
fn longer(best: Span, other: Span) -> Span
    requires { (best.lo ≤ best.hi) × (other.lo ≤ other.hi) }
    ensures { result ≡ cond (ltb (best.hi - best.lo) (other.hi - other.lo)) other best }
{
    if best.hi - best.lo < other.hi - other.lo {
        return other;
    }
    best
}

// The longest range of left_order[lo..hi] with the same key at depth d; the first of several.
pub fn longest_range(work: &[u32], lay: Layout, d: usize, lo: usize, hi: usize) -> Span
    requires { SomeQuery (λ q. RangeThere lay q work.now lo hi) }
    ensures { RangeFound lay work.now d lo hi result }
{
    let mut i = range_end(work, lay, d, lo, hi);
    let mut best = Span { lo: lo, hi: i };
    while i < hi {
        let j = range_end(work, lay, d, i, hi);
        best = longer(best, Span { lo: i, hi: j });
        i = j;
    }
    best
}
