// The frequency of each item: one pass over the entries of each side counts the sets that hold it.
ghost use Rattle.std.specs.Prelude.{◌≡◌, map, ℕ, ◌+◌, ◌<◌, length, get_or};
ghost use Rattle.lists.specs.Lists.{count, memb, upto};
ghost use Rattle.sets.specs.Collections.{lent_sets, sets_in};
ghost use Rattle.inputs.specs.Input.{lent_input, left_sets, right_sets};
ghost use Rattle.item_order_spec.specs.Order.{frequency};
ghost use Rattle.item_order.specs.frequencies.Counts.{CanTally, TalliedInto, CanCount, CanCountBoth};

use inputs::Input;
use sets::Sets;

// Counts each number at its place.
pub fn tally(xs: &[u16], counts: &mut [u16])
    requires { CanTally xs.now counts.old }
    ensures { TalliedInto xs.now counts.old counts.new }
{
    for x in xs {
        counts[*x as usize] += 1;
    }
}

// Counts the sets of one side that hold each item: its entries, since no set has an item twice.
fn count_side(sets: &Sets, frequencies: &mut [u16])
    requires { CanCount (lent_sets sets.now) frequencies.old }
    ensures { (i : ℕ) → i < length frequencies.old
        → get_or frequencies.new i 0
        ≡ get_or frequencies.old i 0 + count (memb i) (sets_in (lent_sets sets.now)) }
{
    let n = sets.entries();
    tally(&sets.items[..n], frequencies);
}

// The frequency of each item.
pub fn count_both(input: &Input, frequencies: &mut [u16])
    requires { CanCountBoth (lent_input input.now) frequencies.old }
    ensures { frequencies.new
        ≡ map (frequency (left_sets (lent_input input.now)) (right_sets (lent_input input.now)))
        (upto (length frequencies.old)) }
{
    count_side(&input.left, frequencies);
    count_side(&input.right, frequencies);
}
