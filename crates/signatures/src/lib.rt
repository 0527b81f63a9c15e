// The signatures of the sets (marks in document 01), two words each in the work list, low then high, straight from the items.
// `item_bits` has the bit of each item.

#![tactic(auto)]

ghost use Rattle.std.specs.Prelude.{◌≡◌, ◌+◌, ◌≤◌, length};
ghost use Rattle.sets.specs.Collections.{between, lent_sets, sets_in};
ghost use Rattle.sets.specs.Signatures.{signature};
ghost use Rattle.signatures.specs.item_bits.Bits.{position_table};
ghost use Rattle.signatures.specs.Signing.{double, DoubleStored, SigningRoom, Signed};
ghost use Rattle.signatures.specs.Signing.{BothRoom, BothSigned};

use crate::item_bits::{position_of, position_table};
use sets::Sets;

pub mod item_bits;

// How many numbers a word of the work list can hold.
const WORDS: u64 = 4294967296;

// The signature of items[start..end].
pub fn sign_set(items: &[u16], table: &[u8; 256], start: usize, end: usize) -> u64
    requires within { end ≤ length items.now }
    requires positions { table.now ≡ position_table }
    ensures { result ≡ signature (between start end items.now) }
{
    let mut mark: u64 = 0;
    for i in start..end {
        let bit = position_of(table, items[i]);
        mark = mark | (1u64 << bit);
    }
    mark
}

// A number of 64 bits in two words.
pub fn store_double(work: &mut [u32], at: usize, number: u64)
    requires { at + 2 ≤ length work.old }
    ensures { DoubleStored at number work.old work.new }
{
    work[at] = (number % WORDS) as u32;
    work[at + 1] = (number / WORDS) as u32;
}

// The number in two words.
pub fn double_at(work: &[u32], at: usize) -> u64
    requires { at + 2 ≤ length work.now }
    ensures { result ≡ double work.now at }
{
    let low = work[at] as u64;
    let high = work[at + 1] as u64;
    low + WORDS * high
}

// The signatures of a collection.
fn sign_sets(work: &mut [u32], sets: &Sets, table: &[u8; 256], at: usize)
    requires room { SigningRoom at (lent_sets sets.now) work.old }
    requires positions { table.now ≡ position_table }
    ensures { Signed at (length (lent_sets sets.now).ends) (sets_in (lent_sets sets.now))
        work.old work.new }
{
    let items = sets.items;
    let mut start: usize = 0;
    for (k, end) in sets.ends.iter().enumerate() {
        let end = *end as usize;
        let mark = sign_set(items, table, start, end);
        store_double(work, at + 2 * k, mark);
        start = end;
    }
}

// The signatures of both collections, those of the left sets above those of the right sets.
pub fn sign_collections(
    work: &mut [u32],
    rights: &Sets,
    lefts: &Sets,
    right_at: usize,
    left_at: usize,
)
    requires { BothRoom right_at left_at (lent_sets rights.now) (lent_sets lefts.now) work.old }
    ensures { BothSigned right_at left_at (sets_in (lent_sets rights.now)) (sets_in (lent_sets lefts.now))
        work.old work.new }
{
    let table = position_table();
    sign_sets(work, rights, &table, right_at);
    sign_sets(work, lefts, &table, left_at);
}
