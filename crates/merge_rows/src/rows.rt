// The rows of the right sets: for each block of 64 right sets a word of 64 bits an item, and before them for each item a word of
// blocks. They stand at the beginning of the work list, two of its words each.
ghost use Rattle.sets.specs.Collections.{lent_sets, sets_in};
ghost use Rattle.merge_rows.specs.Words.{DigitRoom, DigitSet};
ghost use Rattle.merge_rows.specs.Filled.{FillRoom, RowsHold, BlockRoom, BlockOpened, AddRoom, Added};

use counting_sort::clear;
use sets::Sets;

// Makes digit j of the word c of 64 bits 1.
fn set_digit(work: &mut [u32], c: usize, j: usize)
    requires { DigitRoom c j work.old }
    ensures { DigitSet c j work.old work.new }
{
    let i = 2 * c + j / 32;
    work[i] = work[i] | (1u32 << (j % 32));
}

// Clears the words of a block where right set s is its first.
fn open_block(work: &mut [u32], t: usize, s: usize)
    requires { BlockRoom t s work.old }
    ensures { BlockOpened t s work.old work.new }
{
    if s % 64 == 0 {
        clear(work, 2 * (t * (s / 64 + 1)), 2 * t);
    }
}

// Adds right set s: its digit in the word of each of its items, its block's digit in the sum of each.
fn add_right(work: &mut [u32], t: usize, s: usize, set: &[u16])
    requires { AddRoom t s set.now work.old }
    ensures { Added t s set.now work.old work.new }
{
    let block = s / 64;
    let row = t * (block + 1);
    for &item in set {
        let x = item as usize;
        set_digit(work, row + x, s % 64);
        set_digit(work, x, block);
    }
}

// Fills the rows from the right sets. Of what the words held before nothing is left.
pub fn fill_rows(work: &mut [u32], t: usize, sets: &Sets)
    requires { FillRoom t (lent_sets sets.now) work.old }
    ensures { RowsHold t (sets_in (lent_sets sets.now)) work.new }
{
    clear(work, 0, 2 * t);
    let items = sets.items;
    let mut start: usize = 0;
    for (s, &right_end) in sets.ends.iter().enumerate() {
        let end = right_end as usize;
        open_block(work, t, s);
        add_right(work, t, s, &items[start..end]);
        start = end;
    }
}
