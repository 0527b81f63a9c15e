// The two lines of a vector: after its name the answer, then the seven lists.

const STDOUT_FILENO: i32 = 1;

use case_lines::show_number;

fn print_words(words: &[u64]) {
    for word in words {
        show_number(*word);
    }
}

// How much was filled and how many reads were repeats, or the number of a refusal and what returns with it: one detail, for each
// that a load has.
pub fn print_answer(words: &[u64; 10]) {
    if words[0] == 0 {
        io::write_all(STDOUT_FILENO, b": loaded");
        print_words(&words[3..8]);
        io::write_all(STDOUT_FILENO, b" repeats");
        print_words(&words[8..]);
    } else {
        io::write_all(STDOUT_FILENO, b": refused");
        print_words(&words[..2]);
    }
    io::write_all(STDOUT_FILENO, b"\n  ");
}

pub fn print_bytes(list: &[u8], shown: usize) {
    for x in list.iter().take(shown) {
        io::print_hex(STDOUT_FILENO, u64::from(*x), 2);
    }
}

// A bar and the numbers of a list, so many at most.
fn print_list<T: Copy + Into<u64>>(list: &[T], shown: usize) {
    io::write_all(STDOUT_FILENO, b" |");
    for x in list.iter().take(shown) {
        show_number((*x).into());
    }
}

// The three lists of a side.
pub fn print_side(numbers: &[u16], ends: &[u32], items: &[u16], shown: usize) {
    print_list(numbers, shown);
    print_list(ends, shown);
    print_list(items, shown);
}
