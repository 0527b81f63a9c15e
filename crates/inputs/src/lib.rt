// The tests of what is lent, shared by the operations over both collections. Each fails with the refusal; an operation makes the ones it
// needs, in the order of the refusal table. And containment of one set of items in another.
#![tactic(auto)]

ghost use Rattle.std.specs.Prelude.{◌≡◌, true};
ghost use Rattle.lists.specs.Lists.{rising};
ghost use Rattle.sets.specs.Collections.{contained, lent_sets};
ghost use Rattle.inputs.specs.Input.{lent_input};
ghost use Rattle.inputs.specs.Tests.{items_test, side_test, sets_test, lone_test, words_needed, work_test};
ghost use Rattle.inputs.specs.Inner.{Sized};

use sets::{MAX_ITEMS, Refusal, Sets, Side};
use validation::collections::first_bad;
use validation::one_set::good_items;

// What goes into an operation over both collections: the count of items, T, and both collections.
#[derive(Clone, Copy)]
pub struct Input<'a> {
    pub t: u32,
    pub left: Sets<'a>,
    pub right: Sets<'a>,
}

// T is within its limit.
pub fn test_items(t: u32) -> Result<(), Refusal>
    ensures { result ≡ items_test t }
{
    if MAX_ITEMS < t {
        return Err(Refusal::BadSettings);
    }
    Ok(())
}

// A side has no bad set.
pub fn test_side(t: u32, side: Side, sets: &Sets) -> Result<(), Refusal>
    ensures { result ≡ side_test t side (lent_sets sets.now) }
{
    match first_bad(t, sets) {
        None => Ok(()),
        Some(place) => Err(Refusal::BadSet(side, place)),
    }
}

// Neither side has a bad set, the left side first.
pub fn test_sets(input: &Input) -> Result<(), Refusal>
    ensures { result ≡ sets_test (lent_input input.now) }
{
    test_side(input.t, Side::Left, &input.left)?;
    test_side(input.t, Side::Right, &input.right)
}

// A lone right set, lent as its items alone, is not bad; it is refused with the place given.
pub fn test_lone(t: u32, place: usize, set: &[u16]) -> Result<(), Refusal>
    ensures { result ≡ lone_test t place set.now }
{
    if good_items(t, set) {
        return Ok(());
    }
    Err(Refusal::BadSet(Side::Right, place))
}

// The words that a work list must have.
pub fn words_needed(input: &Input) -> usize
    requires { Sized (lent_input input.now) }
    ensures { result ≡ words_needed (lent_input input.now) }
{
    let sets = input.left.len() + input.right.len();
    let entries = input.left.entries() + input.right.entries();
    16 * (sets + entries + (input.t as usize)) + 64
}

// The work list is long enough.
pub fn test_work(input: &Input, words: usize) -> Result<(), Refusal>
    requires { Sized (lent_input input.now) }
    ensures { result ≡ work_test (lent_input input.now) words }
{
    if words < words_needed(input) {
        return Err(Refusal::ShortWork);
    }
    Ok(())
}

// Whether one set of items is contained in another. Both strictly rise, so one pass decides. An empty one is in none.
pub fn is_contained(left: &[u16], right: &[u16]) -> bool
    requires { (rising left.now ≡ true) × (rising right.now ≡ true) }
    ensures { result ≡ contained left.now right.now }
{
    if left.len() == 0 {
        return false;
    }
    let mut i: usize = 0;
    for y in right {
        let x = left[i];
        if x < *y {
            return false;
        }
        if x == *y {
            i += 1;
            if left.len() <= i {
                return true;
            }
        }
    }
    false
}
