// The lines of two numbers behind a word, written into a lent list of bytes: a refusal, and the repeats. They are defined in
// specs/Lines. Each function returns the place after what it wrote.
ghost use Rattle.std.specs.Prelude.{◌+◌, ◌≤◌, length};
ghost use Rattle.lists.specs.Writing.{Put};
ghost use Rattle.text.specs.counts_line.Room.{line_room};
ghost use Rattle.text.specs.Lines.{refused_line, refusal_line, repeats_line};
ghost use Rattle.text.specs.number_lines.Room.{repeats_room};

use crate::put_numbers;
use sets::{Refusal, head_of};
use tag_file::Repeats;

// The line of a refusal with this number and detail, at the beginning.
fn put_refused(text: &mut [u8], number: u64, detail: u64) -> usize
    requires { line_room ≤ length text.old }
    ensures put { Put text.old 0 (refused_line number detail) result text.new }
    ensures upper_bound { result ≤ line_room }
{
    put_numbers(text, 0, b"refused ", number, detail)
}

// The line of a refusal, at the beginning.
pub fn put_refusal(text: &mut [u8], why: Refusal) -> usize
    requires { line_room ≤ length text.old }
    ensures put { Put text.old 0 (refusal_line why) result text.new }
    ensures upper_bound { result ≤ line_room }
{
    let head = head_of(why);
    put_refused(text, head.number, head.first)
}

// The line of the repeats: the left total, then the right one.
pub fn put_repeats(text: &mut [u8], at: usize, repeats: Repeats) -> usize
    requires { at + repeats_room ≤ length text.old }
    ensures put { Put text.old at (repeats_line repeats) result text.new }
    ensures upper_bound { result ≤ at + repeats_room }
{
    let left = repeats.left as u64;
    let right = repeats.right as u64;
    put_numbers(text, at, b"repeats ", left, right)
}
