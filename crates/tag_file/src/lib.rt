// A record of the tag file, read. What a record is, and what the loader fills and answers, is defined in specs/; `answers` gives the
// answers as words at the C boundary. The record reader that counts repeats and the loader have crates of their own.
#![tactic(auto)]

use sets::{Refusal, Sets, Side};

// The bytes of a tag.
pub const TAG_LENGTH: usize = 12;
// The bytes of a record before its tags: mark, number, count.
pub const HEAD_LENGTH: usize = 5;

// How much a loader filled: sets and item entries a side, and tags.
#[derive(Clone, Copy)]
pub struct Loaded {
    pub left_sets: usize,
    pub right_sets: usize,
    pub left_entries: usize,
    pub right_entries: usize,
    pub tag_count: usize,
}

// The sets of a side as they are lent, with the number of each.
#[derive(Clone, Copy)]
pub struct NumberedSets<'a> {
    pub numbers: &'a [u16],
    pub sets: Sets<'a>,
}

// What a tag file holds, as it is lent to be read: the tag table, and the sets of both sides.
#[derive(Clone, Copy)]
pub struct Lists<'a> {
    pub tags: &'a [u8],
    pub left: NumberedSets<'a>,
    pub right: NumberedSets<'a>,
}

// How many reads of each side's records were repeats: of a tag that the same record had before.
#[derive(Clone, Copy)]
pub struct Repeats {
    pub left: usize,
    pub right: usize,
}

ghost use Rattle.std.specs.Prelude.{◌≡◌, ◌+◌, ◌≤◌, length};
ghost use Rattle.tag_file.specs.Format.{head_length};
ghost use Rattle.tag_file.specs.Reading.{read_at, record_at};

pub mod answers;

// What the record reader answers: a whole record, with the place of its first tag and the next place; that there is no more; or why
// not.
#[derive(Clone, Copy)]
pub enum ReadAnswer {
    Record {
        side: Side,
        number: u16,
        count: usize,
        tags_at: usize,
        next: usize,
    },
    NoMore,
    Refused(Refusal),
}

// The same with the repeats among a whole record's tags; 0 without one.
#[derive(Clone, Copy)]
pub struct RecordRead {
    pub answer: ReadAnswer,
    pub repeats: usize,
}

// A record whose mark is that of the side, and whose head is whole.
fn record_at(side: Side, file: &[u8], at: usize) -> ReadAnswer
    requires { at + head_length ≤ length file.now }
    ensures { result ≡ record_at side file.now at }
{
    let high = usize::from(file[at + 2]);
    let low = usize::from(file[at + 3]);
    let count = usize::from(file[at + 4]);
    let tags_at = at + HEAD_LENGTH;
    let room = file.len() - tags_at;
    if TAG_LENGTH * count <= room {
        ReadAnswer::Record {
            side,
            number: (high * 256 + low) as u16,
            count,
            tags_at,
            next: tags_at + TAG_LENGTH * count,
        }
    } else {
        ReadAnswer::Refused(Refusal::Malformed(at))
    }
}

// Reads the record at a place of a file.
pub fn read_at(file: &[u8], at: usize) -> ReadAnswer
    ensures { result ≡ read_at file.now at }
{
    let len = file.len();
    if at == len {
        return ReadAnswer::NoMore;
    }
    if at > len {
        return ReadAnswer::Refused(Refusal::Malformed(at));
    }
    if len - at < HEAD_LENGTH {
        return ReadAnswer::Refused(Refusal::Malformed(at));
    }
    let first = usize::from(file[at]);
    let second = usize::from(file[at + 1]);
    let mark = first * 256 + second;
    if mark == 0x4B54 {
        return record_at(Side::Left, file, at);
    }
    if mark == 0x534B {
        return record_at(Side::Right, file, at);
    }
    ReadAnswer::Refused(Refusal::Malformed(at))
}

// The record reader: the lent file and the next place. The functions over it are thin: `read_at` does the work, and others call
// `read_record`. It leaves the tags alone; `record_reader` counts their repeats.
#[derive(Clone, Copy)]
pub struct Reader<'a> {
    pub file: &'a [u8],
    pub at: usize,
}

// A reader whose next place is given.
pub fn begin_at<'a>(file: &'a [u8], at: usize) -> Reader<'a>
    ensures { (result.file ≡ file.entry) × (result.at ≡ at) }
{
    Reader { file, at }
}

// The record at the reader's next place.
pub fn read_next<'a>(r: Reader<'a>) -> ReadAnswer
    ensures { result ≡ read_at r.entry.file.now r.entry.at }
{
    read_at(r.file, r.at)
}

// The record at a place of a file, by a reader made for it.
pub fn read_record(file: &[u8], at: usize) -> ReadAnswer
    ensures { result ≡ read_at file.now at }
{
    read_next(begin_at(file, at))
}
