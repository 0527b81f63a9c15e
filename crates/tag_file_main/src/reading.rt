// A line of the table, read.
ghost use Rattle.std.specs.Prelude.{◌≤◌, ◌<◌, length, IfSome};

// The place of a byte from `at` on.
pub fn find(text: &[u8], at: usize, byte: u8) -> Option<usize>
    ensures { IfSome result (λ place. place < length text.now) }
{
    for i in at..text.len() {
        if text[i] == byte {
            return Some(i);
        }
    }
    None
}

// A number, and the place after the byte that follows it.
#[derive(Clone, Copy)]
pub struct Number {
    pub value: usize,
    pub next: usize,
}

// Reads a number that is at most so much.
fn read_number(text: &[u8], at: usize, most: usize) -> Number
    requires { most ≤ 3072 }
    ensures { result.value ≤ most }
{
    let mut v: usize = 0;
    for i in at..text.len() {
        let b = usize::from(text[i]);
        if b < 48 {
            return Number {
                value: v,
                next: i + 1,
            };
        }
        v = most.min(v * 10 + (b - 48));
    }
    Number {
        value: v,
        next: text.len(),
    }
}

// The lengths of the lists that are lent, and how much of a list is shown at most.
#[derive(Clone, Copy)]
pub struct Lengths {
    pub tags: usize,
    pub left_sets: usize,
    pub left_items: usize,
    pub right_sets: usize,
    pub right_items: usize,
    pub shown: usize,
}

// Reads the six numbers that begin at a place.
pub fn read_lengths(line: &[u8], at: usize) -> Lengths
    ensures { (result.tags ≤ 3072) × ((result.left_sets ≤ 2) × ((result.left_items ≤ 3) × ((result.right_sets ≤ 3) ×
        (result.right_items ≤ 256)))) }
{
    let tags = read_number(line, at, 3072);
    let left_sets = read_number(line, tags.next, 2);
    let left_items = read_number(line, left_sets.next, 3);
    let right_sets = read_number(line, left_items.next, 3);
    let right_items = read_number(line, right_sets.next, 256);
    let shown = read_number(line, right_items.next, 3072);
    Lengths {
        tags: tags.value,
        left_sets: left_sets.value,
        left_items: left_items.value,
        right_sets: right_sets.value,
        right_items: right_items.value,
        shown: shown.value,
    }
}

// The value of a hexadecimal digit.
fn digit(b: usize) -> usize
    requires { b ≤ 255 }
    ensures { result ≤ 15 }
{
    if b < 64 {
        return b % 16;
    }
    (b + 9) % 16
}

// The byte that is written at a place, and the place after it.
#[derive(Clone, Copy)]
struct Byte {
    value: u8,
    next: usize,
}

fn read_byte(line: &[u8], at: usize) -> Byte
    requires { at < length line.now }
{
    let b = line[at];
    if at + 2 < line.len() {
        if b == b'%' {
            let high = digit(usize::from(line[at + 1]));
            let low = digit(usize::from(line[at + 2]));
            return Byte {
                value: (high * 16 + low) as u8,
                next: at + 3,
            };
        }
    }
    Byte {
        value: b,
        next: at + 1,
    }
}

// A file: how many bytes it has, and the place where it ends.
#[derive(Clone, Copy)]
pub struct File {
    pub length: usize,
    pub end: usize,
}

// Reads a file into a list, up to a slash or the end of the line.
pub fn read_file(line: &[u8], at: usize, out: &mut [u8]) -> File
    ensures length_in_bounds { result.length ≤ length out.new }
    ensures end_in_bounds { result.end ≤ length line.now }
{
    let end = find(line, at, b'/').unwrap_or(line.len());
    let mut i = at;
    for n in 0..out.len() {
        if end <= i {
            return File { length: n, end };
        }
        let byte = read_byte(line, i);
        out[n] = byte.value;
        i = byte.next;
    }
    File {
        length: out.len(),
        end,
    }
}
