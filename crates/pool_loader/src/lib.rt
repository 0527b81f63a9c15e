// The pooled load of two tag files into seven lent lists, over one tag table: the first passes over both files, the room, and the
// second passes. `second_file` has all that follows the first file, `answer` the answer. It allocates nothing beyond its own arrays.
#![tactic(auto)]

ghost use Rattle.tag_file.specs.Loading.{lent_lists, returned_lists};
ghost use Rattle.pool_loader_spec.specs.Pooling.{PooledCall};

use crate::second_file::pool_second;
use sets::Refusal;
use tag_file::{Loaded, Repeats};
use tag_index::TagIndex;
use tag_scan::scan;

pub mod answer;
pub mod second_file;

// Loads two tag files into seven lent lists: the left sets of the first, and the right sets of both, united by number, over one tag
// table.
pub fn load_pooled(
    first: &[u8],
    second: &[u8],
    tags: &mut [u8],
    left_numbers: &mut [u16],
    left_ends: &mut [u32],
    left_items: &mut [u16],
    right_numbers: &mut [u16],
    right_ends: &mut [u32],
    right_items: &mut [u16],
) -> Result<(Loaded, Repeats), Refusal>
    ensures { PooledCall first.now second.now
        (lent_lists tags left_numbers left_ends left_items right_numbers right_ends right_items)
        (returned_lists tags left_numbers left_ends left_items right_numbers right_ends right_items) result }
{
    let mut index = TagIndex::new();
    let answer = scan(first, &mut index);
    pool_second(
        answer,
        first,
        second,
        &mut index,
        tags,
        left_numbers,
        left_ends,
        left_items,
        right_numbers,
        right_ends,
        right_items,
    )
}
