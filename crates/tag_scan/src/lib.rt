// The loader's first pass over a tag file: the first record at fault, or the counts and the repeats of the file and the index of its
// tags. The index tells how many distinct tags a record has, and so how many are repeats. `used_numbers` notes the numbers, `totals`
// has the counts with one more record and the limits.
#![tactic(auto)]

ghost use Rattle.std.specs.Prelude.{◌≡◌, replicate};
ghost use Rattle.tag_scan.specs.used_numbers.Keys.{used_words};
ghost use Rattle.tag_scan.specs.Scan.{Lengths, Scanned};

use crate::totals::{grown, is_over, repeated, stopped};
use crate::used_numbers::{USED_WORDS, claim};
use sets::Refusal;
use tag_file::{Loaded, ReadAnswer, Repeats, read_record};
use tag_index::TagIndex;
use tag_index::tag_adding::{Added, SEEN_WORDS, add_tags};

pub mod totals;
pub mod used_numbers;

// The first pass over a file, with its own bit set for the numbers. It is never inlined, so that the bit set takes stack only while it
// runs (D-78).
#[inline(never)]
pub fn scan(file: &[u8], index: &mut TagIndex) -> Result<(Loaded, Repeats), Refusal>
    requires { Lengths index.old }
    ensures { Scanned file.now index.new result }
{
    let mut used = [0u64; USED_WORDS];
    scan_records(file, &mut used, index)
}

// Record after record, from none and at place 0, up to the first fault or the end; the numbers are noted in a lent bit set.
pub fn scan_records(
    file: &[u8],
    used: &mut [u64],
    index: &mut TagIndex,
) -> Result<(Loaded, Repeats), Refusal>
    requires lengths { Lengths index.old }
    requires used_value { used.old ≡ replicate used_words 0 }
    ensures { Scanned file.now index.new result }
{
    let mut total = Loaded {
        left_sets: 0,
        right_sets: 0,
        left_entries: 0,
        right_entries: 0,
        tag_count: 0,
    };
    let mut repeats = Repeats { left: 0, right: 0 };
    let mut at = 0;
    loop {
        let answer = read_record(file, at);
        let ReadAnswer::Record {
            side,
            number,
            count,
            tags_at,
            next,
        } = answer
        else {
            return stopped(answer, total, repeats);
        };
        if claim(used, side, number) {
            return Err(Refusal::NumberUsed(at));
        }
        let mut seen = [0u64; SEEN_WORDS];
        let sum = Added {
            tag_count: total.tag_count,
            distinct: 0,
        };
        let added = add_tags(file, index, &mut seen, tags_at, count, sum);
        total = grown(total, side, added);
        if is_over(total, side) {
            return Err(Refusal::TooMany(at));
        }
        repeats = repeated(repeats, side, count - added.distinct);
        at = next;
    }
}
