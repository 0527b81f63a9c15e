// The search for the first kit on document 01's shelf and at its edges: empty kits, no kits, T = 0 and 4,096, and each refusal. A line says
// the case and the six words of the answer.
#![tactic(auto)]

use case_lines::show_number;
use sets::Sets;

const STDOUT_FILENO: i32 = 1;

// One case: its name and the words of the answer.
fn run_case(name: &[u8], t: u32, left: &Sets, right: &[u16]) {
    io::write_all(STDOUT_FILENO, name);
    let words = first_search_spec::first_words(first_search::find_first(t, left, right));
    for word in &words {
        show_number(*word);
    }
    io::write_all(STDOUT_FILENO, b"\n");
}

// Kits {0,1}, {1}, {0,2,3} and the stacks {0,1,2}, {1,3}, {0,2,3}, which hold the first, the second and the third; and {2,3}.
fn run_shelf() {
    let left = Sets {
        ends: &[2u32, 3, 6],
        items: &[0u16, 1, 1, 0, 2, 3],
    };
    run_case(b"the first kit", 4, &left, &[0u16, 1, 2]);
    run_case(b"the second kit", 4, &left, &[1u16, 3]);
    run_case(b"the third kit", 4, &left, &[0u16, 2, 3]);
    run_case(b"none", 4, &left, &[2u16, 3]);
    run_case(b"an empty stack", 4, &left, &[0u16; 0]);
    run_case(b"T above 4,096", 4097, &left, &[2u16, 1]);
    run_case(b"a bad stack", 4, &left, &[2u16, 1]);
    run_case(b"a bad kit before a bad stack", 3, &left, &[2u16, 1]);
}

// Kits {} and {1}; kits {0} and {}, with an item past the last end; kits {} and {}, with a stack that has a tag and with an empty one; no
// kits; no items.
fn run_empty() {
    let first = Sets {
        ends: &[0u32, 1],
        items: &[1u16],
    };
    run_case(b"an empty kit first", 2, &first, &[1u16]);
    let last = Sets {
        ends: &[1u32, 1],
        items: &[0u16, 1],
    };
    run_case(b"an empty kit last", 2, &last, &[1u16]);
    let only = Sets {
        ends: &[0u32, 0],
        items: &[1u16],
    };
    run_case(b"only empty kits", 2, &only, &[1u16]);
    run_case(b"only empty kits, an empty stack", 2, &only, &[0u16; 0]);
    let none = Sets {
        ends: &[0u32; 0],
        items: &[0u16, 1],
    };
    run_case(b"no kits", 2, &none, &[1u16]);
    let no_items = Sets {
        ends: &[0u32, 0],
        items: &[0u16; 0],
    };
    run_case(b"no items", 0, &no_items, &[0u16; 0]);
}

// Kits {4094} and {4095}, with the greatest T.
fn run_greatest() {
    let left = Sets {
        ends: &[1u32, 2],
        items: &[4094u16, 4095],
    };
    run_case(b"T of 4,096", 4096, &left, &[4095u16]);
}

fn main() {
    run_shelf();
    run_empty();
    run_greatest();
}
