// The test of one set: its items, and its end beside the end before it.
ghost use Rattle.std.specs.Prelude.{◌≡◌, ◌&&◌, ltb};
ghost use Rattle.lists.specs.Lists.{all, rising};
ghost use Rattle.sets.specs.Collections.{between, good_items, good_end};

use sets::{MAX_ENTRIES, MAX_SET_LENGTH};

// Whether items are below t and strictly rise: `least` is the least that the next may be.
fn rises_below(t: u32, items: &[u16]) -> bool
    ensures { result ≡ (all (λ i. ltb i t) items.now && rising items.now) }
{
    let mut least: u32 = 0;
    for x in items {
        let x = *x as u32;
        if x < least {
            return false;
        }
        if t <= x {
            return false;
        }
        least = x + 1;
    }
    true
}

// Whether items can be those of a set: not too many, each below t, strictly rising.
pub fn good_items(t: u32, set: &[u16]) -> bool
    ensures { result ≡ good_items t set.now }
{
    if MAX_SET_LENGTH < set.len() {
        return false;
    }
    rises_below(t, set)
}

// Whether a set is in order, given the end before it and its own.
pub fn good_set(t: u32, start: usize, end: usize, items: &[u16]) -> bool
    ensures { result ≡ (good_end start end items.now && good_items t (between start end items.now)) }
{
    if end < start {
        return false;
    }
    if MAX_ENTRIES < end {
        return false;
    }
    if items.len() < end {
        return false;
    }
    good_items(t, &items[start..end])
}
