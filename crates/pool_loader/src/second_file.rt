// The pooled load after its pass over the first file: the pass over the second, the answer, and the seven lists.
ghost use Rattle.tag_file.specs.Loading.{lent_lists, returned_lists, lists_now};
ghost use Rattle.pool_loader_spec.specs.Pooling.{pooled_records, PooledCall};
ghost use Rattle.tag_scan.specs.Scan.{Scanned};
ghost use Rattle.tag_loader.specs.Passes.{AllFilled};
ghost use Rattle.pool_loader.specs.second_file.Judging.{JudgeReady, Judged, PoolFillable};

use crate::answer::decide;
use pool_fill::fill_right;
use pool_scan::right_slots::{BLOCKS, NUMBER_WORDS, index_right};
use pool_scan::scan_second;
use sets::{MAX_SETS, Refusal, Side};
use tag_file::{Loaded, Repeats};
use tag_index::tag_items::rank_ids;
use tag_index::{INDEX_ROOM, TagIndex};
use tag_loader::fill::fill_side;
use tag_loader::lent_lists::{LoadRoom, SideRoom, clear_lists};
use tag_loader::tag_table::fill_tags;

// The answer: the first file's, or after the pass over the second that of both, by the lengths of the lists. It leaves the slots of
// the pooled sets.
fn judge(
    answer: Result<(Loaded, Repeats), Refusal>,
    first: &[u8],
    second: &[u8],
    index: &mut TagIndex,
    used: &mut [u64; NUMBER_WORDS],
    counts: &mut [u16; BLOCKS],
    slots: &mut [u32; MAX_SETS],
    room: LoadRoom,
) -> Result<(Loaded, Repeats), Refusal>
    requires { JudgeReady answer first.now index.old used.old counts.old slots.old }
    ensures { Judged first.now second.now index.new
        used.new counts.new slots.new room result }
{
    let Ok((total, repeats)) = answer else {
        return answer;
    };
    index_right(first, used, counts, slots);
    let scanned = scan_second(first, second, total, repeats, used, counts, slots, index);
    let found = scanned.answer;
    let long = scanned.long;
    decide(found, long, room)
}

// The second passes: fill the seven lists.
fn fill_pooled(
    first: &[u8],
    second: &[u8],
    index: &TagIndex,
    n: usize,
    used: &[u64; NUMBER_WORDS],
    counts: &[u16; BLOCKS],
    slots: &mut [u32; MAX_SETS],
    tags: &mut [u8],
    left_numbers: &mut [u16],
    left_ends: &mut [u32],
    left_items: &mut [u16],
    right_numbers: &mut [u16],
    right_ends: &mut [u32],
    right_items: &mut [u16],
)
    requires { PoolFillable first.now second.now index.now n used.now counts.now slots.old
        (lists_now tags left_numbers left_ends left_items right_numbers right_ends right_items) }
    ensures { AllFilled (pooled_records first.now second.now)
        (lent_lists tags left_numbers left_ends left_items right_numbers right_ends right_items)
        (returned_lists tags left_numbers left_ends left_items right_numbers right_ends right_items) }
{
    let mut ranks = [0u16; INDEX_ROOM];
    rank_ids(&index.ids, n, &mut ranks);
    fill_tags(index, n, tags);
    fill_side(
        first,
        index,
        &ranks,
        n,
        Side::Left,
        left_numbers,
        left_ends,
        left_items,
    );
    fill_right(
        first,
        second,
        index,
        &ranks,
        n,
        used,
        counts,
        slots,
        right_numbers,
        right_ends,
        right_items,
    );
}

// Goes on from the pass over the first file: the second file, the answer, and the lists, zeros or what the files fill. It is never
// inlined, so that its slots take stack only while it runs (D-78).
#[inline(never)]
pub fn pool_second(
    answer: Result<(Loaded, Repeats), Refusal>,
    first: &[u8],
    second: &[u8],
    index: &mut TagIndex,
    tags: &mut [u8],
    left_numbers: &mut [u16],
    left_ends: &mut [u32],
    left_items: &mut [u16],
    right_numbers: &mut [u16],
    right_ends: &mut [u32],
    right_items: &mut [u16],
) -> Result<(Loaded, Repeats), Refusal>
    requires { Scanned first.now index.old answer }
    ensures { PooledCall first.now second.now
        (lent_lists tags left_numbers left_ends left_items right_numbers right_ends right_items)
        (returned_lists tags left_numbers left_ends left_items right_numbers right_ends right_items) result }
{
    let mut used = [0u64; NUMBER_WORDS];
    let mut counts = [0u16; BLOCKS];
    let mut slots = [0u32; MAX_SETS];
    let room = LoadRoom {
        tags: tags.len(),
        left: SideRoom {
            numbers: left_numbers.len(),
            ends: left_ends.len(),
            items: left_items.len(),
        },
        right: SideRoom {
            numbers: right_numbers.len(),
            ends: right_ends.len(),
            items: right_items.len(),
        },
    };
    let judged = judge(
        answer,
        first,
        second,
        index,
        &mut used,
        &mut counts,
        &mut slots,
        room,
    );
    let Ok((total, _)) = judged else {
        clear_lists(
            tags,
            left_numbers,
            left_ends,
            left_items,
            right_numbers,
            right_ends,
            right_items,
        );
        return judged;
    };
    let n = total.tag_count;
    fill_pooled(
        first,
        second,
        index,
        n,
        &used,
        &counts,
        &mut slots,
        tags,
        left_numbers,
        left_ends,
        left_items,
        right_numbers,
        right_ends,
        right_items,
    );
    judged
}
