// The lines of pairs of record numbers, written into a lent list of bytes. They are defined in specs/Lines. Each function returns the
// place after what it wrote.
ghost use Rattle.std.specs.Prelude.{◌+◌, ◌*◌, ◌≤◌, length};
ghost use Rattle.lists.specs.Writing.{Put};
ghost use Rattle.text.specs.Lines.{pair_line, pair_lines};
ghost use Rattle.text.specs.pair_lines.Room.{pair_room, PairsRoom};

use crate::{put_labelled, put_number, put_word};

// The line of a pair: the numbers of its two records.
fn put_pair(text: &mut [u8], at: usize, left: u16, right: u16) -> usize
    requires { at + pair_room ≤ length text.old }
    ensures put { Put text.old at (pair_line left right) result text.new }
    ensures upper_bound { result ≤ at + pair_room }
{
    let n = put_number(text, at, left as u64);
    let m = put_labelled(text, n, b" ", right as u64);
    put_word(text, m, b"\n")
}

// A line for each pair of places, by the record numbers at these places.
pub fn put_pairs(
    text: &mut [u8],
    at: usize,
    pairs: &[u16],
    left_numbers: &[u16],
    right_numbers: &[u16],
) -> usize
    requires { PairsRoom text.old at pairs.now left_numbers.now right_numbers.now }
    ensures put { Put text.old at
        (pair_lines left_numbers.now right_numbers.now pairs.now) result text.new }
    ensures upper_bound { result ≤ at + 6 * length pairs.now }
{
    let mut n = at;
    for [left, right] in pairs.as_chunks::<2>().0 {
        let left = usize::from(*left);
        let right = usize::from(*right);
        n = put_pair(text, n, left_numbers[left], right_numbers[right]);
    }
    n
}
