// The order of items on document 01's shelf and at its edges: T = 0, empty sets, ties, both directions, and each refusal.
// A line says the case, the answer's number with its detail (0 where it is accepted), and the rank list afterwards.
#![tactic(auto)]

use case_lines::{show_number, show_numbers, show_refusal};
use inputs::Input;
use sets::{Refusal, Sets};

const STDOUT_FILENO: i32 = 1;

fn show_list(ranks: &[u16]) {
    io::write_all(STDOUT_FILENO, b" :");
    show_numbers(ranks);
    io::write_all(STDOUT_FILENO, b"\n");
}

fn show_answer(answer: Result<(), Refusal>) {
    match answer {
        Ok(()) => show_number(0),
        Err(why) => show_refusal(why),
    }
}

// One case: its name, the answer, and the rank list after it.
fn run_case(name: &[u8], input: &Input, falling: bool, ranks: &mut [u16]) {
    io::write_all(STDOUT_FILENO, name);
    let answer = item_order::order(input, falling, ranks);
    show_answer(answer);
    show_list(ranks);
}

// Kits {0,1}, {1}, {0,2,3} and stacks {0,1,2}, {1,3}, {0,2,3}: items 2 and 3 are in three sets, 0 and 1 in four.
fn run_shelf(name: &[u8], t: u32, falling: bool, ranks: &mut [u16]) {
    let left_ends = [2u32, 3, 6];
    let left_items = [0u16, 1, 1, 0, 2, 3];
    let right_ends = [3u32, 5, 8];
    let right_items = [0u16, 1, 2, 1, 3, 0, 2, 3];
    let input = Input {
        t,
        left: Sets {
            ends: &left_ends,
            items: &left_items,
        },
        right: Sets {
            ends: &right_ends,
            items: &right_items,
        },
    };
    run_case(name, &input, falling, ranks);
}

// An empty kit and two empty stacks; the item past the last end doesn't count.
fn run_empty(name: &[u8], t: u32, ranks: &mut [u16]) {
    let left_ends = [0u32];
    let left_items = [1u16];
    let right_ends = [0u32, 0];
    let right_items = [0u16; 0];
    let input = Input {
        t,
        left: Sets {
            ends: &left_ends,
            items: &left_items,
        },
        right: Sets {
            ends: &right_ends,
            items: &right_items,
        },
    };
    run_case(name, &input, false, ranks);
}

// Kits {0} and {1,1}, the second bad; a stack whose end is past its items.
fn run_bad_left(name: &[u8], t: u32, ranks: &mut [u16]) {
    let left_ends = [1u32, 3];
    let left_items = [0u16, 1, 1];
    let right_ends = [3u32];
    let right_items = [0u16, 2];
    let input = Input {
        t,
        left: Sets {
            ends: &left_ends,
            items: &left_items,
        },
        right: Sets {
            ends: &right_ends,
            items: &right_items,
        },
    };
    run_case(name, &input, false, ranks);
}

// A good kit {0}; stacks {2} and {4}, where 4 is no item below 4.
fn run_bad_right(name: &[u8], t: u32, ranks: &mut [u16]) {
    let left_ends = [1u32];
    let left_items = [0u16];
    let right_ends = [1u32, 2];
    let right_items = [2u16, 4];
    let input = Input {
        t,
        left: Sets {
            ends: &left_ends,
            items: &left_items,
        },
        right: Sets {
            ends: &right_ends,
            items: &right_items,
        },
    };
    run_case(name, &input, false, ranks);
}

// Kit {299} alone, with more items than the small tables take: it is last by rising and first by falling frequency.
fn run_large(name: &[u8], falling: bool) {
    let left_ends = [1u32];
    let left_items = [299u16];
    let right_ends = [0u32; 0];
    let right_items = [0u16; 0];
    let mut ranks = [0u16; 300];
    io::write_all(STDOUT_FILENO, name);
    let input = Input {
        t: 300,
        left: Sets {
            ends: &left_ends,
            items: &left_items,
        },
        right: Sets {
            ends: &right_ends,
            items: &right_items,
        },
    };
    let answer = item_order::order(&input, falling, &mut ranks);
    show_answer(answer);
    show_list(&ranks[297..300]);
}

fn run_settings() {
    let mut five = [9u16; 5];
    run_shelf(b"a list longer than T", 4, false, &mut five);
    let mut three = [9u16; 3];
    run_shelf(b"a list shorter than T", 4, true, &mut three);
    run_shelf(b"T above 4,096", 4097, false, &mut three);
    run_bad_left(b"6 before 5", 4, &mut three);
}

fn main() {
    let mut ranks = [9u16; 4];
    run_bad_left(b"a bad kit before a bad stack", 4, &mut ranks);
    run_bad_right(b"a bad stack", 4, &mut ranks);
    run_shelf(b"rising", 4, false, &mut ranks);
    run_shelf(b"falling", 4, true, &mut ranks);
    run_empty(b"empty sets", 4, &mut ranks);
    let mut none = [9u16; 0];
    run_empty(b"no items", 0, &mut none);
    run_settings();
    run_large(b"large rising", false);
    run_large(b"large falling", true);
}
