// The tags of a record, added to the index and to a set. The ids of the set's tags are seen in a bit set, so a tag that comes again is
// not counted again.
ghost use Rattle.std.specs.Prelude.{◌≡◌, List, ℕ, ◌<◌, length};
ghost use Rattle.tag_index.specs.Index.{index_room};
ghost use Rattle.tag_index.specs.tag_adding.Adding.{seen_words, Seen, Adding, SomeAdding, RoomToAdd, AllAdded};

use crate::{INDEX_ROOM, TagIndex, take_tag};
use bit_sets::claim;
use tag_file::TAG_LENGTH;

// The words of a bit set with a member for each id.
pub const SEEN_WORDS: usize = (INDEX_ROOM + 63) / 64;

// Sees the tag of an id: 1 if it was not seen before, else 0.
pub fn see(seen: &mut [u64], id: usize) -> usize
    requires { (id < index_room) × (length seen.old ≡ seen_words) }
    ensures { Seen seen.old id result seen.new }
{
    let before = claim(seen, id);
    usize::from(!before)
}

// How many tags the index has, and how many distinct ones the set has so far.
#[derive(Clone, Copy)]
pub struct Added {
    pub tag_count: usize,
    pub distinct: usize,
}

// Adds the tags of a record, the first at start, to the index and to a set. The set may have tags from a record before: `sum` counts
// its distinct ones so far, and `seen` has their ids. A set without tags starts with 0 and no ids.
pub fn add_tags(
    file: &[u8],
    index: &mut TagIndex,
    seen: &mut [u64],
    start: usize,
    count: usize,
    sum: Added,
) -> Added
    requires some_adding { SomeAdding index.old sum.tag_count sum.distinct seen.old }
    requires room_to_add { RoomToAdd file.now start count sum.tag_count sum.distinct }
    ensures { (done : List ℕ)
        → Adding done index.old sum.tag_count sum.distinct seen.old
        → AllAdded done file.now start count sum.tag_count index.old
        result.tag_count result.distinct index.new seen.new }
{
    let mut tag_count = sum.tag_count;
    let mut distinct = sum.distinct;
    for k in 0..count {
        let place = start + TAG_LENGTH * k;
        let found = take_tag(file, index, place, tag_count);
        tag_count = found.tag_count;
        distinct = distinct + see(seen, found.id);
    }
    Added {
        tag_count,
        distinct,
    }
}
