// The program kitlist (document 01): reads a tag file from standard input and writes the text that `listing` makes of it, every kit
// that a stack contains or why there is no list. With all calls below it, it takes less than half a megabyte of stack.
#![tactic(auto)]

use listing::{MAX_FILE, TEXT_ROOM};

const STDIN: i32 = 0;

const STDOUT: i32 = 1;
// The longest file, and a byte more to tell that a file is longer.
const BUFFER: usize = MAX_FILE + 1;

fn main() {
    let mut file = [0u8; BUFFER];
    let length = io::read_full(STDIN, &mut file);
    let mut text = [0u8; TEXT_ROOM];
    let end = listing::list_file(&file[..length], &mut text);
    io::write_all(STDOUT, &text[..end]);
}
