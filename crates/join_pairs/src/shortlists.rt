// The right sets that may contain a left set, found in the index: first its rank that fewest right sets hold, then the candidates from
// there. The work list is read by its layout, and candidates go into its slots.
ghost use Rattle.std.specs.Prelude.{◌≡◌, true};
ghost use Rattle.lists.specs.Lists.{memb};
ghost use Rattle.join_index.specs.Asking.{SomeQuery, RankThere};
ghost use Rattle.join_pairs.specs.shortlists.Shortlists.{RanksThere, Located, SpanThere, RankMet, FindThere, Shortlisted};
ghost use Rattle.words.specs.flags.Flags.{Clear};

use join_index::Layout;
use words::shared::intersect;
use words::{Part, word_at};

// How many right sets hold a rank.
pub fn count_holders(work: &[u32], lay: Layout, r: usize) -> usize
    requires { SomeQuery (λ q. RankThere lay q work.now r) }
{
    let offsets = lay.offsets;
    word_at(work, offsets + r + 1) - word_at(work, offsets + r)
}

// Of some ranks, one that fewest right sets hold.
pub fn pivot(work: &[u32], lay: Layout, ranks: &[u32]) -> usize
    requires { SomeQuery (λ q. RanksThere lay q work.now ranks.now) }
    ensures { memb result ranks.now ≡ true }
{
    let mut rank = word_at(ranks, 0);
    let mut least = count_holders(work, lay, rank);
    for word in &ranks[1..] {
        let next = *word as usize;
        let n = count_holders(work, lay, next);
        if n < least {
            rank = next;
            least = n;
        }
    }
    rank
}

// Above so many ranks a signature tells most right sets apart; below so many candidates it does not pay to cut them down.
const FEW_RANKS: usize = 3;

const FEW_CANDIDATES: usize = 16;

// Candidates: places of right sets in a part of the work list, and where the ranks begin that not all of them need hold.
#[derive(Clone, Copy)]
pub struct Shortlist {
    pub from: usize,
    pub to: usize,
    pub rest: usize,
}

// Where the inverted list of a rank lies.
fn list_of(work: &[u32], lay: Layout, r: usize) -> Part
    requires { SomeQuery (λ q. RankThere lay q work.now r) }
    ensures { Located lay work.now r result }
{
    let offsets = lay.offsets;
    let index = lay.index;
    let from = index + word_at(work, offsets + r);
    let to = index + word_at(work, offsets + r + 1);
    Part { from: from, to: to }
}

// Whether n candidates of a left set with so many ranks are better checked than cut down by the rank r.
fn stops(work: &[u32], lay: Layout, r: usize, pivot: usize, n: usize, ranks: usize) -> bool
    requires { SomeQuery (λ q. RankThere lay q work.now r) }
{
    if r == pivot {
        return false;
    }
    if FEW_RANKS < ranks {
        return true;
    }
    if n < FEW_CANDIDATES {
        return true;
    }
    n < count_holders(work, lay, r) / 4
}

// Cuts candidates that all hold the pivot down to those that hold the rank r, in the slot of r.
fn meet(
    work: &mut [u32],
    flags: &mut [u8],
    lay: Layout,
    r: usize,
    pivot: usize,
    from: usize,
    to: usize,
) -> Part
    requires some_query { SomeQuery (λ q. SpanThere lay q work.old r pivot from to) }
    requires clear_2 { Clear flags.old }
    ensures met { RankMet lay work.old r pivot from to work.new result }
    ensures clear { Clear flags.new }
{
    if r == pivot {
        return Part { from: from, to: to };
    }
    let offsets = lay.offsets;
    let slots = lay.slots;
    let list = list_of(work, lay, r);
    let out = slots + word_at(work, offsets + r);
    let end = intersect(work, flags, from, to, list.from, list.to, out);
    Part { from: out, to: end }
}

// Candidates for the left set whose ranks are work[from..to], the pivot among them.
pub fn find_candidates(
    work: &mut [u32],
    flags: &mut [u8],
    lay: Layout,
    from: usize,
    to: usize,
    pivot: usize,
) -> Shortlist
    requires some_query { SomeQuery (λ q. FindThere lay q work.old from to pivot) }
    requires clear_2 { Clear flags.old }
    ensures listed { Shortlisted lay work.old from to pivot work.new result }
    ensures clear { Clear flags.new }
{
    let first = list_of(work, lay, pivot);
    let mut a = first.from;
    let mut b = first.to;
    for i in from..to {
        let r = word_at(work, i);
        if stops(work, lay, r, pivot, b - a, to - from) {
            return Shortlist {
                from: a,
                to: b,
                rest: i,
            };
        }
        let s = meet(work, flags, lay, r, pivot, a, b);
        a = s.from;
        b = s.to;
    }
    Shortlist {
        from: a,
        to: b,
        rest: to,
    }
}
