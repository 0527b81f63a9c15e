// The signatures of right sets, each made when it is first asked for.
ghost use Rattle.std.specs.Prelude.{◌≡◌, ◌*◌, ◌<◌, ◌≤◌, [], ◌∷◌, length, get_or};
ghost use Rattle.lists.specs.Lists.{count};
ghost use Rattle.sets.specs.Collections.{lent_sets, sets_in};
ghost use Rattle.sets.specs.Signatures.{signature};
ghost use Rattle.signatures.specs.item_bits.Bits.{position_table};
ghost use Rattle.bit_sets.specs.BitSets.{digits_from};
ghost use Rattle.merge_rows.specs.SignedSets.{SignRoom, Signs, drops_at, PlacesIn};

use sets::Sets;
use signatures::item_bits::position_table;
use signatures::{double_at, sign_set, store_double};

// Where set s of a collection begins.
pub fn start_of(ends: &[u32], s: usize) -> usize
    requires { s ≤ length ends.now }
    ensures { result ≡ get_or (0 ∷ ends.now) s 0 }
{
    if s == 0 {
        return 0;
    }
    ends[s - 1] as usize
}

// The signature of right set s, made and kept where it is not there yet.
fn signature_of(work: &mut [u32], at: usize, table: &[u8; 256], sets: &Sets, s: usize) -> u64
    requires room { SignRoom at (lent_sets sets.now) work.old }
    requires positions { table.now ≡ position_table }
    requires place { s < length (lent_sets sets.now).ends }
    ensures is { result ≡ signature (get_or (sets_in (lent_sets sets.now)) s []) }
    ensures signs { Signs at (sets_in (lent_sets sets.now)) work.old work.new }
{
    let known = double_at(work, at + 2 * s);
    if known != 0 {
        return known;
    }
    let ends = sets.ends;
    let start = start_of(ends, s);
    let end = ends[s] as usize;
    let mark = sign_set(sets.items, table, start, end);
    store_double(work, at + 2 * s, mark);
    mark
}

// How many right sets of a word, whose first is base, a left set's signature drops.
pub fn count_drops(
    work: &mut [u32],
    at: usize,
    table: &[u8; 256],
    sets: &Sets,
    mark: u64,
    base: usize,
    word: u64,
) -> usize
    requires room { SignRoom at (lent_sets sets.now) work.old }
    requires positions { table.now ≡ position_table }
    requires places { PlacesIn (length (lent_sets sets.now).ends) (digits_from 64 base word) }
    ensures counted { result
        ≡ count (drops_at mark (sets_in (lent_sets sets.now))) (digits_from 64 base word) }
    ensures signs { Signs at (sets_in (lent_sets sets.now)) work.old work.new }
{
    let mut rest = word;
    let mut dropped: usize = 0;
    while rest != 0 {
        let s = base + u64::trailing_zeros(rest) as usize;
        let right = signature_of(work, at, table, sets, s);
        dropped += usize::from(mark & right != mark);
        rest = rest & (rest - 1);
    }
    dropped
}
