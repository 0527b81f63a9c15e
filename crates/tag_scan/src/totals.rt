// The totals of a load: its counts and repeats with one more record of a side, whether counts exceed a limit, and the answer of a
// first pass when the reading has ended.
ghost use Rattle.std.specs.Prelude.{◌≡◌, ◌≤◌, Ok, Err};
ghost use Rattle.sets.specs.Limits.{max_set_length};
ghost use Rattle.sets.specs.Refusals.{unless};
ghost use Rattle.tag_file.specs.Loading.{refusal_of};
ghost use Rattle.tag_scan.specs.totals.Totals.{grown_by, passes, is_over, Limited, repeated_by, RepeatsRoom};

use sets::{MAX_ENTRIES, MAX_ITEMS, MAX_SETS, Refusal, Side};
use tag_file::{Loaded, ReadAnswer, Repeats};
use tag_index::tag_adding::Added;

// The greatest number of distinct tags.
const MAX_TAGS: usize = MAX_ITEMS as usize;

// The counts with one more record of a side.
pub fn grown(total: Loaded, side: Side, added: Added) -> Loaded
    requires limited { Limited total }
    requires distinct_le_max_set_length { added.distinct ≤ max_set_length }
    ensures { result ≡ grown_by total side added.tag_count added.distinct }
{
    match side {
        Side::Left => Loaded {
            left_sets: total.left_sets + 1,
            right_sets: total.right_sets,
            left_entries: total.left_entries + added.distinct,
            right_entries: total.right_entries,
            tag_count: added.tag_count,
        },
        Side::Right => Loaded {
            left_sets: total.left_sets,
            right_sets: total.right_sets + 1,
            left_entries: total.left_entries,
            right_entries: total.right_entries + added.distinct,
            tag_count: added.tag_count,
        },
    }
}

// The repeats with those of one more record of a side.
pub fn repeated(repeats: Repeats, side: Side, more: usize) -> Repeats
    requires { RepeatsRoom repeats more }
    ensures { result ≡ repeated_by repeats side more }
{
    match side {
        Side::Left => Repeats {
            left: repeats.left + more,
            right: repeats.right,
        },
        Side::Right => Repeats {
            left: repeats.left,
            right: repeats.right + more,
        },
    }
}

// Whether counts exceed a limit.
pub fn is_past(sets: usize, entries: usize, tag_count: usize) -> bool
    ensures { result ≡ passes sets entries tag_count }
{
    sets > MAX_SETS || (entries > MAX_ENTRIES || tag_count > MAX_TAGS)
}

// The same, for one side.
pub fn is_over(total: Loaded, side: Side) -> bool
    ensures { result ≡ is_over total side }
{
    match side {
        Side::Left => is_past(total.left_sets, total.left_entries, total.tag_count),
        Side::Right => is_past(total.right_sets, total.right_entries, total.tag_count),
    }
}

// What the first pass answers when the reading has ended: the reader's refusal, or the counts and the repeats.
pub fn stopped(
    answer: ReadAnswer,
    total: Loaded,
    repeats: Repeats,
) -> Result<(Loaded, Repeats), Refusal>
    ensures { result ≡ unless Err (refusal_of answer) (Ok (total, repeats)) }
{
    match answer {
        ReadAnswer::Refused(why) => Err(why),
        ReadAnswer::NoMore => Ok((total, repeats)),
        ReadAnswer::Record {
            side: _,
            number: _,
            count: _,
            tags_at: _,
            next: _,
        } => Ok((total, repeats)),
    }
}
