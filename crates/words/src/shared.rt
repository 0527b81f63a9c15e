// The words that two rising parts of a list share, written behind them: by a table of flags, or, if one part is far shorter, by
// looking for its words. The table is lent all clear and comes back all clear.
ghost use Rattle.words.specs.Merges.{Rising};
ghost use Rattle.words.specs.flags.Flags.{flag_room, Below, Clear};
ghost use Rattle.words.specs.shared.Sharing.{Apart, Intersected};

use crate::flags::{keep_flagged, set_flags};
use crate::found::keep_found;

// Whether a part of so many words is far shorter than another: finding each of its words there takes less time than flagging all.
fn is_far_shorter(short: usize, long: usize) -> bool {
    short < long / 32
}

// Writes from out on the words that both parts have, and returns where they end: flags the words of the first part, writes the flagged
// words of the second, and takes the flags away again. If the second part is far shorter, its words are looked for in the first.
pub fn intersect(
    work: &mut [u32],
    flags: &mut [u8],
    a: usize,
    b: usize,
    c: usize,
    e: usize,
    out: usize,
) -> usize
    requires rising { Rising a b work.old }
    requires rising_2 { Rising c e work.old }
    requires apart { Apart b c e out work.old }
    requires below { Below flag_room a b work.old }
    requires below_2 { Below flag_room c e work.old }
    requires clear_2 { Clear flags.old }
    ensures shared { Intersected a b c e out work.old work.new result }
    ensures clear { Clear flags.new }
{
    if is_far_shorter(e - c, b - a) {
        return keep_found(work, a, b, c, e, out);
    }
    set_flags(&work[a..b], 1, flags);
    let r = keep_flagged(work, c, e, out, flags);
    set_flags(&work[a..b], 0, flags);
    r
}
