// The loader of tag files. A first pass finds the first record at fault, or the counts and the index of the distinct tags (tag_scan).
// Then `lent_lists` tests the room, `tag_table` writes the tags, and `fill` goes through the file again for each side, record by
// record (`record_items`). It allocates nothing beyond its own arrays.
#![tactic(auto)]

ghost use Rattle.tag_file.specs.Records.{records};
ghost use Rattle.tag_file.specs.Loading.{lent_lists, returned_lists, lists_now, LoadCall};
ghost use Rattle.tag_loader.specs.Passes.{AllFilled, Fillable};

use crate::fill::fill_side;
use crate::lent_lists::{LoadRoom, SideRoom, clear_lists, has_room};
use crate::tag_table::fill_tags;
use sets::{Refusal, Side};
use tag_file::{Loaded, Repeats};
use tag_index::tag_items::rank_ids;
use tag_index::{INDEX_ROOM, TagIndex};
use tag_scan::scan;

pub mod fill;
pub mod lent_lists;
pub mod record_items;
pub mod tag_table;

// The second pass: fills the seven lists. It is never inlined, so that its positions take stack only while it runs (D-78).
#[inline(never)]
fn fill_lists(
    file: &[u8],
    index: &TagIndex,
    n: usize,
    tags: &mut [u8],
    left_numbers: &mut [u16],
    left_ends: &mut [u32],
    left_items: &mut [u16],
    right_numbers: &mut [u16],
    right_ends: &mut [u32],
    right_items: &mut [u16],
)
    requires { Fillable file.now index.now n
        (lists_now tags left_numbers left_ends left_items right_numbers right_ends right_items) }
    ensures { AllFilled (records file.now)
        (lent_lists tags left_numbers left_ends left_items right_numbers right_ends right_items)
        (returned_lists tags left_numbers left_ends left_items right_numbers right_ends right_items) }
{
    let mut ranks = [0u16; INDEX_ROOM];
    rank_ids(&index.ids, n, &mut ranks);
    fill_tags(index, n, tags);
    fill_side(
        file,
        index,
        &ranks,
        n,
        Side::Left,
        left_numbers,
        left_ends,
        left_items,
    );
    fill_side(
        file,
        index,
        &ranks,
        n,
        Side::Right,
        right_numbers,
        right_ends,
        right_items,
    );
}

// Loads a tag file into seven lent lists: the tag table, and for each side the record numbers, the ends and the items.
pub fn load(
    file: &[u8],
    tags: &mut [u8],
    left_numbers: &mut [u16],
    left_ends: &mut [u32],
    left_items: &mut [u16],
    right_numbers: &mut [u16],
    right_ends: &mut [u32],
    right_items: &mut [u16],
) -> Result<(Loaded, Repeats), Refusal>
    ensures { LoadCall file.now
        (lent_lists tags left_numbers left_ends left_items right_numbers right_ends right_items)
        (returned_lists tags left_numbers left_ends left_items right_numbers right_ends right_items) result }
{
    let mut index = TagIndex::new();
    let answer = scan(file, &mut index);
    let Ok((total, _)) = answer else {
        clear_lists(
            tags,
            left_numbers,
            left_ends,
            left_items,
            right_numbers,
            right_ends,
            right_items,
        );
        return answer;
    };
    let room = LoadRoom {
        tags: tags.len(),
        left: SideRoom {
            numbers: left_numbers.len(),
            ends: left_ends.len(),
            items: left_items.len(),
        },
        right: SideRoom {
            numbers: right_numbers.len(),
            ends: right_ends.len(),
            items: right_items.len(),
        },
    };
    if !has_room(total, room) {
        clear_lists(
            tags,
            left_numbers,
            left_ends,
            left_items,
            right_numbers,
            right_ends,
            right_items,
        );
        return Err(Refusal::ShortOutput);
    }
    let n = total.tag_count;
    fill_lists(
        file,
        &index,
        n,
        tags,
        left_numbers,
        left_ends,
        left_items,
        right_numbers,
        right_ends,
        right_items,
    );
    answer
}
