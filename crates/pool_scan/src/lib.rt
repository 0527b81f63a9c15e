// The first pass over the second of two pooled files: the first record at fault, or the counts of the pooled records, the repeats of
// both files and the index of their tags. It goes on from the counts, the repeats and the index of the first file. `right_slots` finds
// the first file's right set of a number, `union` takes in the tags of a set from both files, `counting` has what is counted. A pooled
// set counts as a union; its repeats are the second file's record's alone.
#![tactic(auto)]

ghost use Rattle.std.specs.Prelude.{◌≡◌, length};
ghost use Rattle.bit_sets.specs.BitSets.{Claimed};
ghost use Rattle.pool_scan.specs.right_slots.Slots.{number_words};
ghost use Rattle.pool_scan.specs.Second.{SecondReady, SecondScanned};

use crate::counting::{Second, accepted, count_from, count_set, refused};
use crate::right_slots::NUMBER_WORDS;
use crate::union::unite;
use sets::{Refusal, Side};
use std::num::wrapping_add_usize;
use tag_file::{Loaded, ReadAnswer, Repeats, read_record};
use tag_index::TagIndex;
use tag_scan::totals::is_past;

pub mod counting;
pub mod right_slots;
pub mod union;

// Notes a number, and tells whether it was noted before.
fn claim(used: &mut [u64], number: u16) -> bool
    requires { length used.old ≡ number_words }
    ensures { Claimed used.old number result used.new }
{
    bit_sets::claim(used, number as usize)
}

// The pass over the second file, from the counts and the repeats of the first.
pub fn scan_second(
    first: &[u8],
    second: &[u8],
    before: Loaded,
    found: Repeats,
    used: &[u64],
    counts: &[u16],
    slots: &mut [u32],
    index: &mut TagIndex,
) -> Second
    requires { SecondReady first.now before found index.old used.now counts.now slots.old }
    ensures { SecondScanned first.now second.now index.new used.now slots.new result }
{
    let mut noted = [0u64; NUMBER_WORDS];
    let mut counted = count_from(before, found);
    let mut at = 0;
    loop {
        let answer = read_record(second, at);
        let place = wrapping_add_usize(first.len(), at);
        let ReadAnswer::Record {
            side,
            number,
            count,
            tags_at,
            next,
        } = answer
        else {
            if at == second.len() {
                return accepted(counted);
            }
            return refused(Refusal::Malformed(place));
        };
        if side == Side::Right {
            if claim(&mut noted, number) {
                return refused(Refusal::NumberUsed(place));
            }
            let so_far = counted.total;
            let n = so_far.tag_count;
            let united = unite(
                first, second, number, tags_at, count, used, counts, slots, index, n,
            );
            counted = count_set(counted, united, count, place);
            let total = counted.total;
            if is_past(total.right_sets, total.right_entries, total.tag_count) {
                return refused(Refusal::TooMany(place));
            }
        }
        at = next;
    }
}
