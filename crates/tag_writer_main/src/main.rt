// Named vectors through the writer of tag files: each line has the vector's name, the answer and the whole output list, which
// holds EE before the call. `stdout` has what document 01 says.
#![tactic(auto)]

use case_lines::{show_number, show_refusal};
use sets::{Refusal, Sets};
use tag_file::{Lists, NumberedSets};

const STDOUT: i32 = 1;

fn print_answer(answer: Result<usize, Refusal>) {
    match answer {
        Ok(length) => {
            io::write_all(STDOUT, b": written");
            show_number(length as u64);
        }
        Err(why) => {
            io::write_all(STDOUT, b": refused");
            show_refusal(why);
        }
    }
}

fn print_bytes(file: &[u8]) {
    for byte in file {
        io::print_hex(STDOUT, u64::from(*byte), 2);
    }
}

// The sets of a side with their numbers.
fn side<'a>(numbers: &'a [u16], ends: &'a [u32], items: &'a [u16]) -> NumberedSets<'a> {
    NumberedSets {
        numbers,
        sets: Sets { ends, items },
    }
}

// One vector, with its output list.
fn run_into(name: &[u8], t: u32, lists: &Lists, file: &mut [u8]) {
    let answer = tag_writer::write(t, lists, file);
    io::write_all(STDOUT, name);
    print_answer(answer);
    io::write_all(STDOUT, b" ");
    print_bytes(file);
    io::write_all(STDOUT, b"\n");
}

// One vector, with an output list of `room` bytes, 64 at most.
fn run(name: &[u8], t: u32, tags: &[u8], left: NumberedSets, right: NumberedSets, room: usize) {
    if 64 < room {
        return;
    }
    let mut file = [0xEEu8; 64];
    run_into(name, t, &Lists { tags, left, right }, &mut file[..room]);
}

// One vector without right sets.
fn run_left(name: &[u8], t: u32, tags: &[u8], left: NumberedSets, room: usize) {
    run(name, t, tags, left, side(&[], &[], &[]), room);
}

// Two tags, eleven zero bytes and then 1 or 2.
const TAGS: [u8; 24] = [
    0, 0, 0, 0, 0, 0, 0, 0, 0, 0, 0, 1, 0, 0, 0, 0, 0, 0, 0, 0, 0, 0, 0, 2,
];

fn accepted() {
    let tags = TAGS;
    run(
        b"kitlist's example",
        2,
        &tags,
        side(&[7], &[2], &[0, 1]),
        side(&[9], &[2], &[0, 1]),
        58,
    );
    run(
        b"empty sets, both kinds",
        0,
        &tags[..0],
        side(&[1, 2], &[0, 0], &[]),
        side(&[3], &[0], &[]),
        15,
    );
}

fn accepted_left() {
    let tags = TAGS;
    run_left(
        b"high byte first, the rest as before",
        0,
        &tags[..0],
        side(&[0x1234], &[0], &[]),
        8,
    );
    run_left(b"nothing", 0, &tags[..0], side(&[], &[], &[]), 2);
    run_left(
        b"one item of two, items past the last end",
        2,
        &tags,
        side(&[5], &[1], &[1, 9]),
        17,
    );
}

fn refused_settings() {
    let tags = TAGS;
    run_left(b"T over 4,096", 4097, &tags, side(&[], &[], &[]), 2);
    run_left(
        b"tag table of another length",
        1,
        &tags,
        side(&[], &[], &[]),
        2,
    );
    run_left(b"6 before 5", 1, &tags, side(&[], &[1], &[0]), 2);
}

fn refused_left() {
    let tags = TAGS;
    run_left(b"a bad kit", 2, &tags, side(&[1, 2], &[1, 2], &[0, 2]), 2);
    run_left(
        b"fewer numbers than kits",
        2,
        &tags,
        side(&[1], &[1, 2], &[0, 1]),
        2,
    );
    run_left(
        b"more numbers than kits",
        2,
        &tags,
        side(&[1, 2], &[1], &[0]),
        2,
    );
    run_left(
        b"a bad kit before its numbers",
        2,
        &tags,
        side(&[], &[1, 1, 0], &[0]),
        2,
    );
}

fn refused_right() {
    let tags = TAGS;
    run(
        b"kit numbers before a bad stack",
        2,
        &tags,
        side(&[], &[1], &[0]),
        side(&[1], &[2], &[1, 0]),
        2,
    );
    run(
        b"a bad stack",
        2,
        &tags,
        side(&[1], &[1], &[0]),
        side(&[1], &[2], &[1, 0]),
        2,
    );
    run(
        b"numbers of the stacks",
        2,
        &tags,
        side(&[1], &[1], &[0]),
        side(&[1, 2, 3], &[1, 2], &[1, 0]),
        2,
    );
}

fn short_output() {
    let tags = TAGS;
    run_left(b"one byte short", 2, &tags, side(&[1], &[1], &[0]), 16);
    run_left(b"just long enough", 2, &tags, side(&[1], &[1], &[0]), 17);
    run_left(b"5 before 4", 2, &tags, side(&[1], &[1], &[2]), 0);
}

fn main() {
    accepted();
    accepted_left();
    refused_settings();
    refused_left();
    refused_right();
    short_output();
}
