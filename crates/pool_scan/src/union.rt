// The tags of one right set of the second of two pooled files, taken into the index as a union: if the first file has a set of its
// number, the tags of that record are marked again, and then the second's that are new.
ghost use Rattle.std.specs.Prelude.{◌≡◌, ℕ, [], replicate};
ghost use Rattle.tag_file.specs.Reading.{tags_at};
ghost use Rattle.tag_index.specs.Index.{table_of};
ghost use Rattle.tag_index.specs.tag_adding.Adding.{seen_words, AllAdded};
ghost use Rattle.pool_scan.specs.union.Union.{WholeRecordAt, KnownRecordAt, IndexReady, TagsInside, AddedAlone, AddedBoth};
ghost use Rattle.pool_scan.specs.union.Union.{UniteReady, Taking};

use crate::right_slots::{POOLED_MARK, number_slot};
use bit_sets::contains;
use tag_file::{ReadAnswer, read_record};
use tag_index::TagIndex;
use tag_index::own_tags::add_beside;
use tag_index::tag_adding::{Added, SEEN_WORDS, add_tags};

// The tags of a set of the second file: how many the index has with them, how many distinct ones the first file's set of its number had,
// if there is one, how many the second's record has, and how many both have together.
#[derive(Clone, Copy)]
pub struct United {
    pub tag_count: usize,
    pub first: Option<usize>,
    pub second: usize,
    pub all: usize,
}

// Adds the tags of the record at a place of the first file, the first of a set.
fn add_first(first: &[u8], at: usize, index: &mut TagIndex, seen: &mut [u64], n: usize) -> Added
    requires index_ready { IndexReady index.old n }
    requires seen_value { seen.old ≡ replicate seen_words 0 }
    ensures { (count start : ℕ) → WholeRecordAt first.now at count start
        → AllAdded [] first.now start count n index.old
        result.tag_count result.distinct index.new seen.new }
{
    let answer = read_record(first, at);
    let sum = Added {
        tag_count: n,
        distinct: 0,
    };
    match answer {
        ReadAnswer::Record {
            side: _,
            number: _,
            count,
            tags_at,
            next: _,
        } => add_tags(first, index, seen, tags_at, count, sum),
        ReadAnswer::NoMore => sum,
        ReadAnswer::Refused(_) => sum,
    }
}

// Takes in the tags of a right set of the second file that is not in the first file.
fn add_alone(second: &[u8], start: usize, count: usize, index: &mut TagIndex, n: usize) -> United
    requires index_ready { IndexReady index.old n }
    requires tags_inside { TagsInside second.now start count }
    ensures { AddedAlone (tags_at count second.now start) index.old n result index.new }
{
    let mut seen = [0u64; SEEN_WORDS];
    let sum = Added {
        tag_count: n,
        distinct: 0,
    };
    let added = add_tags(second, index, &mut seen, start, count, sum);
    United {
        tag_count: added.tag_count,
        first: None,
        second: added.distinct,
        all: added.distinct,
    }
}

// Takes in the tags of a right set of the second file, behind those of the first file's record at a place.
fn add_both(
    first: &[u8],
    at: usize,
    second: &[u8],
    start: usize,
    count: usize,
    index: &mut TagIndex,
    n: usize,
) -> United
    requires index_ready { IndexReady index.old n }
    requires tags_inside { TagsInside second.now start count }
    requires known_record_at { KnownRecordAt first.now at (table_of index.old n) }
    ensures { AddedBoth first.now at (tags_at count second.now start) index.old n result index.new }
{
    let mut seen = [0u64; SEEN_WORDS];
    let before = add_first(first, at, index, &mut seen, n);
    let both = add_beside(second, index, &mut seen, start, count, before);
    United {
        tag_count: both.tag_count,
        first: Some(before.distinct),
        second: both.own,
        all: both.distinct,
    }
}

// Takes in the tags of a right set of the second file, behind those of the first file's set of its number, if there is one; its slot
// then has the length of the union.
pub fn unite(
    first: &[u8],
    second: &[u8],
    number: u16,
    start: usize,
    count: usize,
    used: &[u64],
    counts: &[u16],
    slots: &mut [u32],
    index: &mut TagIndex,
    n: usize,
) -> United
    requires { UniteReady first.now second.now number start count n index.old
        used.now counts.now slots.old }
    ensures { Taking first.now second.now number start count n index.old used.now slots.old result
        index.new slots.new }
{
    if !contains(used, number as usize) {
        return add_alone(second, start, count, index, n);
    }
    let slot = number_slot(used, counts, number);
    let at = slots[slot] as usize;
    let united = add_both(first, at, second, start, count, index, n);
    slots[slot] = POOLED_MARK + united.all as u32;
    united
}
