// What the pass over the second of two pooled files counts: the sets, entries and tags of both files, their repeats, and the first set
// that is too long as a union. A set of both files is counted once; its repeats by the second file's record alone.
ghost use Rattle.std.specs.Prelude.{◌≡◌, ◌+◌, ◌≤◌, nat_lt, unwrap_or, Err};
ghost use Rattle.sets.specs.Limits.{max_set_length};
ghost use Rattle.sets.specs.Refusals.{refuse_if, unless};
ghost use Rattle.sets.specs.declared.Refusal.TheVariants.{Overlong};
ghost use Rattle.tag_scan.specs.totals.Totals.{Limited};
ghost use Rattle.pool_scan.specs.counting.Counting.{counted_from, united_by, counted_by, accepted_by, CountReady};

use crate::union::United;
use sets::{MAX_SET_LENGTH, Refusal};
use tag_file::{Loaded, Repeats};

// The counts so far, the repeats, and the first record whose pooled set is too long.
#[derive(Clone, Copy)]
pub struct Counted {
    pub total: Loaded,
    pub repeats: Repeats,
    pub long: Result<(), Refusal>,
}

// What the pass answers: the first fault, or the counts; and the first record whose pooled set is too long.
#[derive(Clone, Copy)]
pub struct Second {
    pub answer: Result<(Loaded, Repeats), Refusal>,
    pub long: Result<(), Refusal>,
}

// What is counted before the second file: what the first file has.
pub fn count_from(before: Loaded, found: Repeats) -> Counted
    ensures { result ≡ counted_from before found }
{
    Counted {
        total: before,
        repeats: found,
        long: Ok(()),
    }
}

// The counts with one more right set of the second file.
fn grown_by(total: Loaded, united: United) -> Loaded
    requires limited { Limited total }
    requires first_le_all { (unwrap_or united.first 0 ≤ united.all) × (united.all ≤ max_set_length + max_set_length) }
    ensures { result ≡ united_by total united united.first }
{
    match united.first {
        Some(first) => Loaded {
            left_sets: total.left_sets,
            right_sets: total.right_sets,
            left_entries: total.left_entries,
            right_entries: total.right_entries + (united.all - first),
            tag_count: united.tag_count,
        },
        None => Loaded {
            left_sets: total.left_sets,
            right_sets: total.right_sets + 1,
            left_entries: total.left_entries,
            right_entries: total.right_entries + united.all,
            tag_count: united.tag_count,
        },
    }
}

// The first pooled set that is too long: the one before, or this one.
fn first_long(before: Result<(), Refusal>, all: usize, place: usize) -> Result<(), Refusal>
    ensures { result ≡ unless Err before (refuse_if (nat_lt max_set_length all) (Overlong place)) }
{
    before?;
    if all > MAX_SET_LENGTH {
        return Err(Refusal::Overlong(place));
    }
    Ok(())
}

// One more right set of the second file, of so many tags, whose record is at a place.
pub fn count_set(before: Counted, united: United, count: usize, place: usize) -> Counted
    requires { CountReady before united count }
    ensures { result ≡ counted_by before united count place }
{
    let total = grown_by(before.total, united);
    let found = before.repeats;
    let repeats = Repeats {
        left: found.left,
        right: found.right + (count - united.second),
    };
    let was = before.long;
    let long = first_long(was, united.all, place);
    Counted {
        total,
        repeats,
        long,
    }
}

// The answer when a record is at fault.
pub fn refused(why: Refusal) -> Second
    ensures { result.answer ≡ Err why }
{
    Second {
        answer: Err(why),
        long: Ok(()),
    }
}

// The answer at the end of a file without fault.
pub fn accepted(counted: Counted) -> Second
    ensures { result ≡ accepted_by counted }
{
    let total = counted.total;
    let repeats = counted.repeats;
    let long = counted.long;
    Second {
        answer: Ok((total, repeats)),
        long,
    }
}
