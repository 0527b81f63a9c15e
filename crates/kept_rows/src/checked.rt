// Rows that are kept while their left set is checked: the places of the right sets that a check confirms, stored at the end of the
// kept rows as they are found.
ghost use Rattle.std.specs.Prelude.{◌+◌, ◌-◌, ◌<◌};
ghost use Rattle.sets.specs.Limits.{full_words};
ghost use Rattle.join_index.specs.Asking.{SomeQuery};
ghost use Rattle.join_check.specs.Counters.{checks_in};
ghost use Rattle.kept_rows.specs.checked.Recording.{RowRecordable, RowRecorded};

use crate::{Progress, keep_row};
use join_check::{Tally, check_one, probe_left};
use join_index::Layout;
use words::word_at;

// Checks the left set k, after its first e ranks, against each right set listed in work[from..to], and keeps the confirmed ones at top
// as its row. Every place is stored, and the end moves only past the confirmed ones.
pub fn record_row(
    work: &mut [u32],
    lay: Layout,
    k: usize,
    e: usize,
    from: usize,
    to: usize,
    tally: Tally,
    top: usize,
) -> Progress
    requires some_query { SomeQuery (λ q. RowRecordable lay q work.old k e from to top) }
    requires from_bound { checks_in tally + (to - from) < full_words }
    ensures { RowRecorded lay work.old k e from to tally top work.new result }
{
    let p = probe_left(work, lay, k, e);
    let mut r = tally;
    let mut n = top;
    for i in from..to {
        let s = word_at(work, i);
        let before = r.confirmed;
        r = check_one(work, lay, p, s, r);
        work[n] = s as u32;
        n += (r.confirmed - before) as usize;
    }
    keep_row(work, lay, k, top, n);
    Progress { tally: r, top: n }
}
