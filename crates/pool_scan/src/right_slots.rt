// Slots for the right sets of a file, found by their numbers: a bit set has the numbers that are used, and the slot of a number is how
// many of them are below it.
ghost use Rattle.std.specs.Prelude.{◌≡◌, ◌+◌, ◌*◌, ◌/◌, ◌%◌, ◌<◌, ◌≤◌, length, replicate};
ghost use Rattle.lists.specs.Lists.{count, range};
ghost use Rattle.bit_sets.specs.BitSets.{member};
ghost use Rattle.sets.specs.Limits.{max_sets, half_words};
ghost use Rattle.sets.specs.declared.Side.TheVariants.{Right};
ghost use Rattle.tag_file.specs.Records.{records, of_side};
ghost use Rattle.pool_scan.specs.right_slots.Slots.{number_words, block_length, blocks, number_slot, BlocksCounted, NumbersNoted};
ghost use Rattle.pool_scan.specs.right_slots.Slots.{Slotted, Slottable};

use bit_sets::{insert, ones_below, ones_of};
use sets::Side;
use tag_file::{ReadAnswer, read_record};

// How many numbers 16 bits have.
pub const HALF_WORDS: usize = 65536;
// The words of the bit set of numbers: a member for each.
pub const NUMBER_WORDS: usize = HALF_WORDS / 64;
// The words of a block.
const BLOCK_WORDS: usize = 2;
// How many blocks there are.
pub const BLOCKS: usize = NUMBER_WORDS / BLOCK_WORDS;
// What marks the word of a slot as the length of a pooled set.
pub const POOLED_MARK: u32 = 2147483648;

// How many members the block of a word has before the word: those of its first word, or none.
fn ones_before(used: &[u64], w: usize) -> usize
    requires { w < length used.now }
    ensures { result ≡ count (member used.now) (range (block_length * (w / 2)) (64 * (w % 2))) }
{
    let first = ones_of(used[w - w % BLOCK_WORDS]);
    first * (w % BLOCK_WORDS)
}

// The slot of a number: how many used numbers are below it.
pub fn number_slot(used: &[u64], counts: &[u16], number: u16) -> usize
    requires { BlocksCounted used.now counts.now }
    ensures { result ≡ number_slot used.now number }
{
    let n = number as usize;
    let w = n / 64;
    let start = counts[n / 128] as usize;
    let before = ones_before(used, w);
    let below = ones_below(used[w], n % 64);
    start + before + below
}

// Notes the numbers of a file's right sets in an empty bit set.
fn note_numbers(file: &[u8], used: &mut [u64])
    requires used_value { used.old ≡ replicate number_words 0 }
    requires file_len_bound { length (of_side Right (records file.now)) ≤ max_sets }
    ensures { NumbersNoted (records file.now) used.new }
{
    let mut at = 0;
    loop {
        let answer = read_record(file, at);
        let ReadAnswer::Record {
            side,
            number,
            count: _,
            tags_at: _,
            next,
        } = answer
        else {
            return;
        };
        at = next;
        if side != Side::Right {
            continue;
        }
        insert(used, number as usize);
    }
}

// How many members a block has.
fn block_ones(used: &[u64], b: usize) -> usize
    requires { 2 * b + 1 < length used.now }
    ensures { result ≡ count (member used.now) (range (block_length * b) block_length) }
{
    let first = ones_of(used[BLOCK_WORDS * b]);
    let second = ones_of(used[BLOCK_WORDS * b + 1]);
    first + second
}

// Writes the slots at which the blocks begin.
fn count_blocks(used: &[u64], counts: &mut [u16])
    requires used_len { length used.now ≡ number_words }
    requires counts_len { length counts.old ≡ blocks }
    requires half_words_bound { number_slot used.now half_words ≤ max_sets }
    ensures { BlocksCounted used.now counts.new }
{
    let mut total: usize = 0;
    for (b, count) in counts.iter_mut().enumerate() {
        *count = total as u16;
        total += block_ones(used, b);
    }
}

// Puts the byte place of each right set's record into its slot.
fn put_places(file: &[u8], used: &[u64], counts: &[u16], slots: &mut [u32])
    requires slottable { Slottable file.now }
    requires numbers_noted { NumbersNoted (records file.now) used.now }
    requires blocks_counted { BlocksCounted used.now counts.now }
    requires slots_len { length slots.old ≡ max_sets }
    ensures { Slotted file.now used.now counts.now slots.new }
{
    let mut at = 0;
    loop {
        let answer = read_record(file, at);
        let ReadAnswer::Record {
            side,
            number,
            count: _,
            tags_at: _,
            next,
        } = answer
        else {
            return;
        };
        let here = at;
        at = next;
        if side != Side::Right {
            continue;
        }
        let slot = number_slot(used, counts, number);
        slots[slot] = here as u32;
    }
}

// Gives each right set of a file its slot, with its record's byte place: notes the numbers, counts the blocks, and puts the places.
pub fn index_right(file: &[u8], used: &mut [u64], counts: &mut [u16], slots: &mut [u32])
    requires used_value { used.old ≡ replicate number_words 0 }
    requires counts_len { length counts.old ≡ blocks }
    requires slots_len { length slots.old ≡ max_sets }
    requires slottable { Slottable file.now }
    ensures { Slotted file.now used.new counts.new slots.new }
{
    note_numbers(file, used);
    count_blocks(used, counts);
    put_places(file, used, counts, slots);
}
