// The lines of the program kitlist, defined in specs/. Here words and decimal numbers are written into a lent list of bytes; the
// modules write the lines: `counts_line`, `pair_lines`, `number_lines` (a refusal, the repeats), and `answer_text` the whole text of a
// join's answer. Each function returns the place after what it wrote.
#![tactic(auto)]

ghost use Rattle.std.specs.Prelude.{◌+◌, ◌≤◌, length};
ghost use Rattle.lists.specs.Writing.{RoomFor, Put};
ghost use Rattle.text.specs.Lines.{decimal, labelled};
ghost use Rattle.text.specs.Room.{two_numbers, numbers_room};

pub mod answer_text;
pub mod counts_line;
pub mod number_lines;
pub mod pair_lines;

// A word.
pub fn put_word(text: &mut [u8], at: usize, word: &[u8]) -> usize
    requires { RoomFor text.old at word.now }
    ensures { Put text.old at word.now result text.new }
{
    let end = at + word.len();
    text[at..end].copy_from_slice(word);
    end
}

// A number in decimal.
pub fn put_number(text: &mut [u8], at: usize, number: u64) -> usize
    requires { RoomFor text.old at (decimal number) }
    ensures { Put text.old at (decimal number) result text.new }
{
    let mut digits = [0u8; 20];
    let n = io::decimal(number, &mut digits);
    put_word(text, at, &digits[..n])
}

// A word before a number.
pub fn put_labelled(text: &mut [u8], at: usize, word: &[u8], number: u64) -> usize
    requires { RoomFor text.old at (labelled word.now number) }
    ensures { Put text.old at (labelled word.now number) result text.new }
{
    let n = put_word(text, at, word);
    put_number(text, n, number)
}

// A line of two numbers behind a word.
pub fn put_numbers(text: &mut [u8], at: usize, word: &[u8], first: u64, second: u64) -> usize
    requires { at + (length word.now + numbers_room) ≤ length text.old }
    ensures put { Put text.old at (two_numbers word.now first second) result text.new }
    ensures upper_bound { result ≤ at + (length word.now + numbers_room) }
{
    let n = put_labelled(text, at, word, first);
    let m = put_labelled(text, n, b" ", second);
    put_word(text, m, b"\n")
}
