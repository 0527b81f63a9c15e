// The numbers that the records of a file used, noted in a bit set: a number of one side is free for the other.
ghost use Rattle.std.specs.Prelude.{◌≡◌, length};
ghost use Rattle.bit_sets.specs.BitSets.{Claimed};
ghost use Rattle.tag_scan.specs.used_numbers.Keys.{used_words, key_of};

use sets::Side;

// How many record numbers there are: 16 bits.
const NUMBERS: usize = 65536;
// The words of a bit set with a member for each number of each side.
pub const USED_WORDS: usize = 2 * NUMBERS / 64;

// Where a side's number is noted.
fn key_of(side: Side, number: u16) -> usize
    ensures { result ≡ key_of side number }
{
    let n = number as usize;
    match side {
        Side::Left => n,
        Side::Right => NUMBERS + n,
    }
}

// Notes a number of a side, and tells whether it was noted before.
pub fn claim(used: &mut [u64], side: Side, number: u16) -> bool
    requires { length used.old ≡ used_words }
    ensures { Claimed used.old (key_of side number) result used.new }
{
    bit_sets::claim(used, key_of(side, number))
}
