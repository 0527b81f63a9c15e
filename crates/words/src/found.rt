// The words of a part that are found in a rising part, each by halving: for a part that is far shorter than the other.
ghost use Rattle.std.specs.Prelude.{◌≡◌, ◌≤◌, true};
ghost use Rattle.lists.specs.Lists.{memb, rising, slice};
ghost use Rattle.words.specs.Merges.{Rising};
ghost use Rattle.words.specs.found.Halving.{Parted};
ghost use Rattle.words.specs.flags.Flags.{Behind, Kept};

use crate::word_at;

// Where the first word of a rising part is that is not below x; the part's end if there is none.
fn lower(part: &[u32], x: usize) -> usize
    requires { rising part.now ≡ true }
    ensures { Parted x part.now result }
{
    let mut lo = 0;
    let mut hi = part.len();
    while lo < hi {
        let mid = lo + (hi - lo) / 2;
        if word_at(part, mid) < x {
            lo = mid + 1;
        } else {
            hi = mid;
        }
    }
    lo
}

// Whether x is among the words of a rising part.
fn is_among(part: &[u32], x: usize) -> bool
    requires { rising part.now ≡ true }
    ensures { result ≡ memb x part.now }
{
    let at = lower(part, x);
    if part.len() <= at {
        return false;
    }
    word_at(part, at) == x
}

// Writes from out on the words of work[c..e] that are among work[a..b], and returns where they end.
pub fn keep_found(work: &mut [u32], a: usize, b: usize, c: usize, e: usize, out: usize) -> usize
    requires a_le_b { a ≤ b }
    requires rising { Rising a b work.old }
    requires b_le_out { b ≤ out }
    requires behind { Behind c e out work.old }
    ensures { Kept (λ s. memb s (slice a b work.old)) c e out work.old work.new result }
{
    let mut n = out;
    for j in c..e {
        let x = word_at(work, j);
        let found = is_among(&work[a..b], x);
        work[n] = x as u32;
        n += usize::from(found);
    }
    n
}
