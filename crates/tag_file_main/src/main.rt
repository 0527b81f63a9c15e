// Named vectors through the loader of tag files, and through the pooled load of two: each has a line with its name and the answer,
// then a line with the seven lists, which hold EE, 77 and 99 before the call. `stdout` has what documents 01 and 02 say.
//
// The vectors are a table on standard input. A line without a slash is a comment. Every other line has, with slashes between:
// - the vector's name;
// - six numbers: the bytes of the tag table, the left sets and their items, the right sets and their items that are lent, and how
//   many of the table's bytes and of the right items are shown at most;
// - the file, or the two files of a pooled load, in percent-encoding: a byte stands for itself, or is % and two hexadecimal digits.
#![tactic(auto)]

pub mod printing;
pub mod reading;

use crate::printing::{print_answer, print_bytes, print_side};
use crate::reading::{find, read_file, read_lengths};
use tag_file::answers::load_words;

const STDIN_FILENO: i32 = 0;

const STDOUT_FILENO: i32 = 1;

// The most bytes of a file.
const FILE_ROOM: usize = 1541;

// A vector over its files, with lists of the lengths that its line has at a place.
fn run_files(line: &[u8], at: usize, pooled: bool, first: &[u8], second: &[u8]) {
    let h = read_lengths(line, at);
    let mut all_tags = [0xEEu8; 3072];
    let mut all_left_numbers = [77u16; 2];
    let mut all_left_ends = [99u32; 2];
    let mut all_left_items = [77u16; 3];
    let mut all_right_numbers = [77u16; 3];
    let mut all_right_ends = [99u32; 3];
    let mut all_right_items = [77u16; 256];
    let tags = &mut all_tags[..h.tags];
    let left_numbers = &mut all_left_numbers[..h.left_sets];
    let left_ends = &mut all_left_ends[..h.left_sets];
    let left_items = &mut all_left_items[..h.left_items];
    let right_numbers = &mut all_right_numbers[..h.right_sets];
    let right_ends = &mut all_right_ends[..h.right_sets];
    let right_items = &mut all_right_items[..h.right_items];
    let answer = if pooled {
        pool_loader::load_pooled(
            first,
            second,
            tags,
            left_numbers,
            left_ends,
            left_items,
            right_numbers,
            right_ends,
            right_items,
        )
    } else {
        tag_loader::load(
            first,
            tags,
            left_numbers,
            left_ends,
            left_items,
            right_numbers,
            right_ends,
            right_items,
        )
    };
    print_answer(&load_words(answer));
    print_bytes(tags, h.shown);
    print_side(left_numbers, left_ends, left_items, h.shown);
    print_side(right_numbers, right_ends, right_items, h.shown);
    io::write_all(STDOUT_FILENO, b"\n");
}

// The vector of a line, if it is no comment.
fn run_line(line: &[u8]) {
    let Some(name) = find(line, 0, b'/') else {
        return;
    };
    io::write_all(STDOUT_FILENO, &line[..name]);
    let numbers = find(line, name + 1, b'/').unwrap_or(line.len());
    let mut first = [0u8; FILE_ROOM];
    let one = read_file(line, numbers + 1, &mut first);
    let mut second = [0u8; FILE_ROOM];
    let two = read_file(line, one.end + 1, &mut second);
    run_files(
        line,
        name + 1,
        one.end < line.len(),
        &first[..one.length],
        &second[..two.length],
    );
}

fn run_lines(text: &[u8]) {
    for line in text.split(|b| *b == b'\n') {
        run_line(line);
    }
}

fn main() {
    let mut text = io::large_buffer();
    let n = io::read_full(STDIN_FILENO, &mut text);
    run_lines(&text[..n]);
}
