// Writes the loader's table of the distinct tags: the tags of an index in rising order, one after the other.
ghost use Rattle.std.specs.Prelude.{◌≡◌, ◌+◌, ◌*◌, ◌≤◌, length};
ghost use Rattle.lists.specs.Writing.{Put};
ghost use Rattle.sets.specs.Limits.{full_words};
ghost use Rattle.sets.specs.Lent.{filled_over};
ghost use Rattle.tag_file.specs.Format.{tag_length, bytes_of, tag_bytes};
ghost use Rattle.tag_index.specs.Index.{table_of, Sorted};

use tag_index::TagIndex;

// Writes a tag from a place on: its first 8 bytes and its last 4.
fn put_tag(head: usize, tail: u32, tags: &mut [u8], at: usize) -> usize
    requires { at + tag_length ≤ length tags.old }
    ensures { Put tags.old at (bytes_of tag_length (head * full_words + tail)) result tags.new }
{
    let mid = at + 8;
    let end = mid + 4;
    tags[at..mid].copy_from_slice(&head.to_be_bytes());
    tags[mid..end].copy_from_slice(&tail.to_be_bytes());
    end
}

// Writes the tags of an index in rising order, one after the other.
pub fn fill_tags(index: &TagIndex, n: usize, tags: &mut [u8])
    requires sorted { Sorted index.now n }
    requires ids_in_bounds { length (tag_bytes (table_of index.now n)) ≤ length tags.old }
    ensures { tags.new ≡ filled_over (tag_bytes (table_of index.now n)) tags.old }
{
    let mut at = 0;
    for x in &index.ids[..n] {
        let id = usize::from(*x);
        at = put_tag(index.heads[id], index.tails[id], tags, at);
    }
}
