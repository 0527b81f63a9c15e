// The tags of a record, added to a set that may have tags from a record before; the record's own distinct tags are counted beside.
ghost use Rattle.std.specs.Prelude.{◌≡◌, List, ℕ, length};
ghost use Rattle.tag_file.specs.Reading.{tags_at};
ghost use Rattle.tag_file.specs.Records.{collapse};
ghost use Rattle.tag_index.specs.tag_adding.Adding.{Adding, SomeAdding, RoomToAdd, AllAdded};

use crate::tag_adding::{Added, SEEN_WORDS, see};
use crate::{TagIndex, take_tag};
use tag_file::TAG_LENGTH;

// How many tags the index has, how many distinct ones the set has so far, and how many the record has by itself.
#[derive(Clone, Copy)]
pub struct AddedBeside {
    pub tag_count: usize,
    pub distinct: usize,
    pub own: usize,
}

// Adds the tags of a record to the index and to a set, as `add_tags` does, and counts the record's own distinct tags beside: a tag
// that the set had before is one of them.
pub fn add_beside(
    file: &[u8],
    index: &mut TagIndex,
    seen: &mut [u64],
    start: usize,
    count: usize,
    sum: Added,
) -> AddedBeside
    requires some_adding { SomeAdding index.old sum.tag_count sum.distinct seen.old }
    requires room_to_add { RoomToAdd file.now start count sum.tag_count sum.distinct }
    ensures by_index { (done : List ℕ)
        → Adding done index.old sum.tag_count sum.distinct seen.old
        → AllAdded done file.now start count sum.tag_count index.old
        result.tag_count result.distinct index.new seen.new }
    ensures own_value { result.own ≡ length (collapse (tags_at count file.now start)) }
{
    let mut alone = [0u64; SEEN_WORDS];
    let mut tag_count = sum.tag_count;
    let mut distinct = sum.distinct;
    let mut own = 0;
    for k in 0..count {
        let place = start + TAG_LENGTH * k;
        let found = take_tag(file, index, place, tag_count);
        tag_count = found.tag_count;
        distinct = distinct + see(seen, found.id);
        own = own + see(&mut alone, found.id);
    }
    AddedBeside {
        tag_count,
        distinct,
        own,
    }
}
