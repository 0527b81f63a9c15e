// Where the regions of a join's index lie in the work list, one above the other, by the sizes of its input.

ghost use Rattle.join_index.specs.regions.Regions.{LaidOut, Sizes};

use crate::Layout;

// Where the regions lie, for t items, the sets and item entries of both sides, and the words of the work list. The rows end where the
// places no longer fit a word.
pub fn lay_out(
    t: usize,
    lefts: usize,
    rights: usize,
    left_entries: usize,
    right_entries: usize,
    words: usize,
) -> Layout
    requires { Sizes t lefts rights left_entries right_entries }
    ensures { LaidOut t lefts rights left_entries right_entries words result }
{
    let index = t + 1;
    let right_starts = index + right_entries;
    let right_ranks = right_starts + rights + 1;
    let left_starts = right_ranks + right_entries + t + 1 + left_entries;
    let left_ranks = left_starts + lefts + 1;
    let least_offsets = left_ranks + left_entries;
    let by_least = least_offsets + t + 2;
    let order = by_least + rights + t + 2;
    let right_signatures = order + lefts;
    let left_signatures = right_signatures + 2 * rights;
    let slots = left_signatures + 2 * lefts;
    let row_starts = slots + right_entries;
    let row_ends = row_starts + lefts;
    let rows = row_ends + lefts;
    let end = words.min(u32::MAX as usize);
    Layout {
        offsets: 0,
        index: index,
        right_starts: right_starts,
        right_ranks: right_ranks,
        left_starts: left_starts,
        left_ranks: left_ranks,
        least_offsets: least_offsets,
        by_least: by_least,
        left_order: order,
        right_signatures: right_signatures,
        left_signatures: left_signatures,
        slots: slots,
        row_starts: row_starts,
        row_ends: row_ends,
        rows: rows,
        end: end,
    }
}
