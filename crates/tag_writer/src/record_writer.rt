// The records of a side as bytes of a tag file: the parts of one record, and the records of all sets, by place. One function writes a
// record, whatever its side.
ghost use Rattle.std.specs.Prelude.{◌≡◌, ◌+◌, ◌*◌, ◌≤◌, length, take, drop};
ghost use Rattle.std.proofs.lemmas.List.Edits.{sets};
ghost use Rattle.sets.specs.Limits.{max_sets, max_entries, max_set_length};
ghost use Rattle.sets.specs.Collections.{lent_sets, sets_in, entries};
ghost use Rattle.tag_file.specs.Format.{tag_length, head_length, record_length, tag_bytes, mark, record_head, record_bytes};
ghost use Rattle.tag_writer_spec.specs.Writer.{item_tags, records_of};
ghost use Rattle.tag_writer_spec.specs.Inner.{ItemsFit, GoodSide};

use sets::{Sets, Side};
use tag_file::NumberedSets;

// The bytes of a tag.
pub const TAG_LENGTH: usize = 12;
// The bytes of a record before its tags.
const HEAD_LENGTH: usize = 5;

// Copies four bytes of the tag table to a place of the file. All are read before the first is stored, so that they can move as one
// word.
fn put_four(tags: &[u8], from: usize, file: &mut [u8], at: usize)
    requires { (from + 4 ≤ length tags.now) × (at + 4 ≤ length file.old) }
    ensures { file.new ≡ sets file.old at (take 4 (drop from tags.now)) }
{
    let a = tags[from];
    let b = tags[from + 1];
    let c = tags[from + 2];
    let d = tags[from + 3];
    file[at] = a;
    file[at + 1] = b;
    file[at + 2] = c;
    file[at + 3] = d;
}

// Copies the tag at a place of the tag table to a place of the file.
fn put_tag(tags: &[u8], from: usize, file: &mut [u8], at: usize)
    requires { (from + tag_length ≤ length tags.now) × (at + tag_length ≤ length file.old) }
    ensures { file.new ≡ sets file.old at (take tag_length (drop from tags.now)) }
{
    put_four(tags, from, file, at);
    put_four(tags, from + 4, file, at + 4);
    put_four(tags, from + 8, file, at + 8);
}

// The mark of a side's records.
fn mark_of(side: Side) -> [u8; 2]
    ensures { result ≡ mark side }
{
    match side {
        Side::Left => [0x4B, 0x54],
        Side::Right => [0x53, 0x4B],
    }
}

// Writes the mark, the number and the count of a record to a place of the file.
fn put_head(side: Side, number: u16, count: u8, file: &mut [u8], at: usize)
    requires { at + head_length ≤ length file.old }
    ensures { file.new ≡ sets file.old at (record_head side number count) }
{
    let [first, second] = mark_of(side);
    let [high, low] = number.to_be_bytes();
    file[at] = first;
    file[at + 1] = second;
    file[at + 2] = high;
    file[at + 3] = low;
    file[at + 4] = count;
}

// Writes the tags of a set's items to a place of the file.
fn put_tags(tags: &[u8], set: &[u16], file: &mut [u8], at: usize)
    requires items_fit { ItemsFit tags.now set.now }
    requires in_bounds { at + tag_length * length set.now ≤ length file.old }
    ensures { file.new ≡ sets file.old at (tag_bytes (item_tags tags.now set.now)) }
{
    let mut to = at;
    for item in set {
        let from = TAG_LENGTH * usize::from(*item);
        put_tag(tags, from, file, to);
        to += TAG_LENGTH;
    }
}

// Writes the record of a set to a place of the file.
fn put_record(side: Side, number: u16, tags: &[u8], set: &[u16], file: &mut [u8], at: usize)
    requires items_fit { ItemsFit tags.now set.now }
    requires in_bounds { (length set.now ≤ max_set_length) × (at + record_length (length set.now) ≤ length file.old) }
    ensures { file.new ≡ sets file.old at (record_bytes side number (item_tags tags.now set.now)) }
{
    let count = set.len() as u8;
    put_head(side, number, count, file, at);
    put_tags(tags, set, file, at + HEAD_LENGTH);
}

// The bytes of a record with so many tags.
fn record_length(count: usize) -> usize
    requires { count ≤ max_set_length }
    ensures { result ≡ record_length count }
{
    HEAD_LENGTH + TAG_LENGTH * count
}

// Writes the records of a side, by place, to a place of the file.
pub fn put_side(side: Side, tags: &[u8], from: &NumberedSets, file: &mut [u8], at: usize)
    requires good_side { GoodSide tags.now from.now.numbers.now from.now.sets.ends.now from.now.sets.items.now }
    requires in_bounds { at + length (records_of side tags.now from.now.numbers.now (sets_in (lent_sets from.now.sets))) ≤ length file.old }
    ensures { file.new ≡ sets file.old at
        (records_of side tags.now from.now.numbers.now (sets_in (lent_sets from.now.sets))) }
{
    let ends = from.sets.ends;
    let items = from.sets.items;
    let numbers = from.numbers;
    let mut start: usize = 0;
    let mut to = at;
    for (k, end) in ends.iter().enumerate() {
        let end = *end as usize;
        put_record(side, numbers[k], tags, &items[start..end], file, to);
        to += record_length(end - start);
        start = end;
    }
}

// The bytes that the records of a side take.
pub fn side_length(sets: &Sets) -> usize
    requires { (length sets.now.ends.now ≤ max_sets) × (entries sets.now.ends.now ≤ max_entries) }
    ensures { result ≡ head_length * length sets.now.ends.now + tag_length * entries sets.now.ends.now }
{
    HEAD_LENGTH * sets.len() + TAG_LENGTH * sets.entries()
}
