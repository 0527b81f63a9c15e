// The first left set that is contained in one right set: the right set's items as a bit set, and the left sets probed one by one,
// in place order, until one has items and all of them are there. Nothing is sorted and no index is built.
#![tactic(auto)]

use bit_sets::{contains_part, insert_part};
use first_search_spec::Search;
use inputs::{test_items, test_lone, test_side};
use sets::{MAX_ITEMS, Refusal, Sets, Side};

// The words of a bit set of items.
const ITEM_WORDS: usize = (MAX_ITEMS as usize) / 64;

ghost use Rattle.std.specs.Prelude.{◌≡◌};
ghost use Rattle.bit_sets.specs.BitSets.{PartFits};
ghost use Rattle.sets.specs.Collections.{lent_sets};
ghost use Rattle.first_search_spec.specs.First.{first_test, first_answer};
ghost use Rattle.first_search.specs.Searching.{CanSearch, is_marked, first_marked};

// What is lent can be searched: T, the left sets, then the right set.
fn test_first(t: u32, left: &Sets, right: &[u16]) -> Result<(), Refusal>
    ensures { result ≡ first_test t (lent_sets left.now) right.now }
{
    test_items(t)?;
    test_side(t, Side::Left, left)?;
    test_lone(t, 0, right)
}

// Whether a left set has items and all of them are marked.
fn is_marked(marks: &[u64], set: &[u16]) -> bool
    requires { PartFits marks.now set.now }
    ensures { result ≡ is_marked marks.now set.now }
{
    !set.is_empty() && contains_part(marks, set)
}

// The first left set that has items and all of them marked.
fn search(left: &Sets, marks: &[u64]) -> Search
    requires { CanSearch (lent_sets left.now) marks.now }
    ensures { result ≡ first_marked (lent_sets left.now) marks.now }
{
    let items = left.items;
    let mut start: usize = 0;
    for (k, left_end) in left.ends.iter().enumerate() {
        let end = *left_end as usize;
        if is_marked(marks, &items[start..end]) {
            return Search {
                place: Some(k),
                compared: k + 1,
            };
        }
        start = end;
    }
    Search {
        place: None,
        compared: left.len(),
    }
}

// Finds the first left set that is contained in the right set, lent as its items alone, and compares no further.
pub fn find_first(t: u32, left: &Sets, right: &[u16]) -> Result<Search, Refusal>
    ensures { result ≡ first_answer t (lent_sets left.now) right.now }
{
    test_first(t, left, right)?;
    let mut marks = [0u64; ITEM_WORDS];
    insert_part(&mut marks, right);
    Ok(search(left, &marks))
}
