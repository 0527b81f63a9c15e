// The test of a rank table: whether it is a permutation. As with the sets' items, no branch depends on a rank: a good table, the usual
// one, is tested at the pace of its reads.
ghost use Rattle.std.specs.Prelude.{◌≡◌, true, ◌≤◌, ltb, length, replicate};
ghost use Rattle.lists.specs.Lists.{all, distinct};
ghost use Rattle.sets.specs.Limits.{max_items};
ghost use Rattle.sets.specs.Ordered.{is_permutation};

use crate::falls::count_high;

// Whether no two ranks are alike. `seen` has a place for each of them, none marked yet.
fn all_distinct(ranks: &[u16], seen: &mut [u8]) -> bool
    requires clear { seen.old ≡ replicate (length seen.old) 0 }
    requires room { all (λ x. ltb x (length seen.old)) ranks.now ≡ true }
    ensures { result ≡ distinct ranks.now }
{
    let mut again: u8 = 0;
    for x in ranks {
        let x = *x as usize;
        again = again | seen[x];
        seen[x] = 1;
    }
    again == 0
}

// Whether a rank table is a permutation of 0 .. t-1. A small table pays for few marks only.
pub fn is_permutation(t: u32, ranks: &[u16]) -> bool
    requires { t ≤ max_items }
    ensures { result ≡ is_permutation t ranks.now }
{
    if ranks.len() != t as usize {
        return false;
    }
    if count_high(t as u16, ranks.len(), ranks) != 0 {
        return false;
    }
    if t <= 512 {
        let mut few = [0u8; 512];
        return all_distinct(ranks, &mut few);
    }
    let mut seen = [0u8; 4096];
    all_distinct(ranks, &mut seen)
}
