// The line of the six counts of a join, written into a lent list of bytes. It is defined in specs/Lines. Each function returns the
// place after what it wrote.
ghost use Rattle.std.specs.Prelude.{◌+◌, ◌≤◌, length};
ghost use Rattle.lists.specs.Writing.{Put};
ghost use Rattle.text.specs.Lines.{labelled, counts_line};
ghost use Rattle.text.specs.counts_line.Room.{count_room, pair_counts, pair_counts_room, check_counts, check_counts_room, line_room};

use crate::{put_labelled, put_word};
use join_spec::Counts;

// A word before a count, which has at most ten digits.
fn put_count(text: &mut [u8], at: usize, word: &[u8], count: u32) -> usize
    requires { at + (length word.now + count_room) ≤ length text.old }
    ensures put { Put text.old at (labelled word.now count) result text.new }
    ensures upper_bound { result ≤ at + (length word.now + count_room) }
{
    put_labelled(text, at, word, count as u64)
}

// The first half of the counts, at the beginning: the pairs.
fn put_pair_counts(text: &mut [u8], counts: Counts) -> usize
    requires { pair_counts_room ≤ length text.old }
    ensures put { Put text.old 0 (pair_counts counts) result text.new }
    ensures upper_bound { result ≤ pair_counts_room }
{
    let n = put_count(text, 0, b"pairs ", counts.pairs);
    let m = put_count(text, n, b" path ", counts.by_path);
    put_count(text, m, b" confirmed ", counts.confirmed)
}

// The other half, with the end of the line: the checks.
fn put_check_counts(text: &mut [u8], at: usize, counts: Counts) -> usize
    requires { at + check_counts_room ≤ length text.old }
    ensures put { Put text.old at (check_counts counts) result text.new }
    ensures upper_bound { result ≤ at + check_counts_room }
{
    let n = put_count(text, at, b" checks ", counts.checks);
    let m = put_count(text, n, b" dropped ", counts.dropped);
    let k = put_count(text, m, b" false ", counts.false_drops);
    put_word(text, k, b"\n")
}

// The line of the counts, at the beginning.
pub fn put_counts(text: &mut [u8], counts: Counts) -> usize
    requires { line_room ≤ length text.old }
    ensures put { Put text.old 0 (counts_line counts) result text.new }
    ensures upper_bound { result ≤ line_room }
{
    let n = put_pair_counts(text, counts);
    put_check_counts(text, n, counts)
}
