// What the programs of named cases write on standard output: numbers, each after a space, and what a refusal returns.
#![tactic(auto)]

use sets::{Refusal, head_of};

const STDOUT: i32 = 1;

// A space and a number.
pub fn show_number(n: u64) {
    io::write_all(STDOUT, b" ");
    io::print_decimal(STDOUT, n);
}

// The numbers of a list.
pub fn show_numbers(list: &[u16]) {
    for n in list {
        show_number(u64::from(*n));
    }
}

// The number of a refusal and what returns with it: two numbers for a bad set, else one.
pub fn show_refusal(why: Refusal) {
    let head = head_of(why);
    show_number(head.number);
    show_number(head.first);
    if let Refusal::BadSet(_side, _place) = why {
        show_number(head.second);
    }
}
