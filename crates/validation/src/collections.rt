// The test of a collection: its first bad set. If there is none, the whole list tells so.
ghost use Rattle.std.specs.Prelude.{◌≡◌, ◌&&◌, leb};
ghost use Rattle.sets.specs.Limits.{max_items};
ghost use Rattle.sets.specs.Collections.{lent_sets, first_bad_in};
ghost use Rattle.validation.specs.collections.WholeList.{is_good};

use crate::falls::{count_border_falls, count_falls, count_high, good_ends};
use crate::one_set::good_set;
use sets::{MAX_ENTRIES, MAX_ITEMS, MAX_SET_LENGTH, MAX_SETS, Sets};

// The first bad set of a collection, looked for set by set.
fn find_bad(t: u32, sets: &Sets) -> Option<usize>
    ensures { result ≡ first_bad_in t (lent_sets sets.now) }
{
    let mut start: usize = 0;
    for (k, end) in sets.ends.iter().enumerate() {
        let end = *end as usize;
        if MAX_SETS <= k {
            return Some(k);
        }
        if !good_set(t, start, end, sets.items) {
            return Some(k);
        }
        start = end;
    }
    None
}

// Whether t is within its limit and no set is bad, told from the whole list: a fall that is not at a border is inside a set.
fn all_good(t: u32, sets: &Sets) -> bool
    ensures { result ≡ (leb t max_items && is_good (first_bad_in t (lent_sets sets.now))) }
{
    if MAX_ITEMS < t {
        return false;
    }
    if MAX_SETS < sets.len() {
        return false;
    }
    if !good_ends(MAX_SET_LENGTH, sets.ends) {
        return false;
    }
    let n = sets.entries();
    if MAX_ENTRIES < n {
        return false;
    }
    if sets.items.len() < n {
        return false;
    }
    let high = count_high(t as u16, n, sets.items);
    if high != 0 {
        return false;
    }
    let borders = count_border_falls(n, sets.ends, sets.items);
    let all = count_falls(n, sets.items);
    all == borders
}

// The first bad set of a collection. Sets are looked at one by one only if the whole list shows that one is bad, or t is above its
// limit.
pub fn first_bad(t: u32, sets: &Sets) -> Option<usize>
    ensures { result ≡ first_bad_in t (lent_sets sets.now) }
{
    if all_good(t, sets) {
        return None;
    }
    find_bad(t, sets)
}
