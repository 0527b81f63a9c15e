// The record reader: the record at a place of a tag file, and how many of its tags are repeats. A tag is looked for among those before
// it in the file itself, and no tag is copied: the tags of a bucket are chained, each with a link to the one before it. A search takes
// as many steps as a bucket has tags, few unless they were chosen for it, and is right wherever the tags fall.
#![tactic(auto)]

ghost use Rattle.std.specs.Prelude.{◌≡◌, ◌+◌, ◌≤◌, ◌<◌, length};
ghost use Rattle.lists.specs.Lists.{memb};
ghost use Rattle.sets.specs.Limits.{max_set_length, full_words};
ghost use Rattle.tag_file.specs.Reading.{past_tags, tags_at};
ghost use Rattle.tag_file.specs.Repeats.{repeats_in, record_read};
ghost use Rattle.tag_index.specs.tag_words.Words.{tag_value};
ghost use Rattle.record_reader.specs.Chains.{tag_of, BucketIs, TagThere, Linked, Chained};

use sets::MAX_SET_LENGTH;
use tag_file::{ReadAnswer, RecordRead, TAG_LENGTH, read_record};
use tag_index::tag_words::{Tag, is_same, tag_at};

// How many buckets there are: a prime, so that tags that count up, in whichever of their bytes, fall into different ones.
const BUCKETS: usize = 251;

// The bucket of a tag.
fn bucket_of(tag: Tag) -> usize
    requires { tag.lo < full_words }
    ensures { BucketIs (tag_value tag) result }
{
    (tag.hi % BUCKETS + tag.lo) % BUCKETS
}

// Chains the tag k of a record, whose first tag is at start: it links to the last tag of its bucket so far, and is the last one now.
// A link is one more than the index of a tag in its record, or 0 for none.
fn link(
    file: &[u8],
    start: usize,
    k: usize,
    last: &mut [u16; BUCKETS],
    links: &mut [u16; MAX_SET_LENGTH],
)
    requires tag_there { TagThere file.now start k }
    requires chained { Chained file.now start k last.old links.old }
    ensures { Chained file.now start (k + 1) last.new links.new }
{
    let bucket = bucket_of(tag_at(file, start + TAG_LENGTH * k));
    links[k] = last[bucket];
    last[bucket] = (k + 1) as u16;
}

// Whether the tag k of a record is among those before it; looked for along the links from it.
fn is_repeat(file: &[u8], start: usize, k: usize, links: &[u16; MAX_SET_LENGTH]) -> bool
    requires tag_there { TagThere file.now start k }
    requires linked { Linked file.now start (k + 1) links.now }
    ensures { result ≡ memb (tag_of file.now start k) (tags_at k file.now start) }
{
    let tag = tag_at(file, start + TAG_LENGTH * k);
    let mut j = usize::from(links[k]);
    while j > 0 {
        let i = j - 1;
        let other = tag_at(file, start + TAG_LENGTH * i);
        if is_same(other, tag) {
            return true;
        }
        j = usize::from(links[i]);
    }
    false
}

// How many tags of a record whose first tag is at start are repeats.
fn count_repeats(file: &[u8], start: usize, count: usize) -> usize
    requires count_in_bounds { past_tags start count ≤ length file.now }
    requires count_le_max_set_length { count ≤ max_set_length }
    ensures { result ≡ repeats_in (tags_at count file.now start) }
{
    let mut last = [0u16; BUCKETS];
    let mut links = [0u16; MAX_SET_LENGTH];
    let mut repeats = 0;
    for k in 0..count {
        link(file, start, k, &mut last, &mut links);
        if is_repeat(file, start, k, &links) {
            repeats += 1;
        }
    }
    repeats
}

// Reads the record at a place of a file, and counts its repeats.
pub fn read(file: &[u8], at: usize) -> RecordRead
    ensures { result ≡ record_read file.now at }
{
    let answer = read_record(file, at);
    let ReadAnswer::Record {
        side: _,
        number: _,
        count,
        tags_at,
        next: _,
    } = answer
    else {
        return RecordRead { answer, repeats: 0 };
    };
    let repeats = count_repeats(file, tags_at, count);
    RecordRead { answer, repeats }
}
