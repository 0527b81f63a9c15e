// Document 01's shelf examples P1 to P9 and cases at the borders, through the join itself: a table of cases, a line each. A
// line of standard output has the case's name, the answer's number with its detail (0 0 where it is accepted), the six counts,
// and the whole pair list, which held 9 in every place before. The table, after the number of its lines, has on each line a
// name, a colon and numbers, each followed by one byte that is no digit:
// - T, limit, budget, rule (0 Merge, 1 Check, 2 Weighed), four codes of weights, words of the work list, places of the pair list;
// - where the left and the right ends stop, in one list, and where left items, right items and ranks stop, in another;
// - the two lists.
#![tactic(auto)]

ghost use Rattle.std.specs.Prelude.{◌≤◌};

use case_lines::{show_number, show_numbers, show_refusal};
use inputs::Input;
use join_spec::{Counts, Rule, Settings, Weights};
use sets::{Refusal, Sets};

const STDIN_FILENO: i32 = 0;

const STDOUT_FILENO: i32 = 1;

// The most lines of a table; the numbers of a case before its lists; the most ends and the most items and ranks of a case.
const LINES: usize = 64;

const NUMBERS: usize = 15;

const ENDS: usize = 16;

const HALVES: usize = 320;
// The most words of a work list, and the most places of a pair list.
const WORDS: usize = 4240;

const PLACES: usize = 10;

fn show_counts(counts: Counts) {
    show_number(u64::from(counts.pairs));
    show_number(u64::from(counts.by_path));
    show_number(u64::from(counts.confirmed));
    show_number(u64::from(counts.checks));
    show_number(u64::from(counts.dropped));
    show_number(u64::from(counts.false_drops));
}

fn show_answer(answer: Result<Counts, Refusal>) {
    match answer {
        Ok(counts) => {
            io::write_all(STDOUT_FILENO, b" 0 0 counts");
            show_counts(counts);
        }
        Err(why) => show_refusal(why),
    }
}

// A weight by its code.
fn weight(code: u32) -> f64 {
    match code {
        0 => 0.0,
        1 => 1.0,
        2 => 1.5,
        3 => f64::INFINITY,
        4 => f64::NEG_INFINITY,
        5 => f64::NAN,
        6 => 9007199254740992.0,
        _ => 9007199254740994.0,
    }
}

// A rule by its number, with the codes of its weights.
fn rule_of(rule: u32, a: u32, b: u32, g: u32, h: u32) -> Rule {
    match rule {
        0 => Rule::Merge,
        1 => Rule::Check,
        _ => Rule::Weighed(Weights {
            a: weight(a),
            b: weight(b),
            g: weight(g),
            h: weight(h),
        }),
    }
}

// The numbers before a case's bounds.
#[derive(Clone, Copy)]
struct Setting {
    t: u32,
    limit: u32,
    budget: u32,
    rule: Rule,
    words: u32,
    places: u32,
}

fn read_setting(h: &[u32; NUMBERS]) -> Setting {
    Setting {
        t: h[0],
        limit: h[1],
        budget: h[2],
        rule: rule_of(h[3], h[4], h[5], h[6], h[7]),
        words: h[8],
        places: h[9],
    }
}

// A number, or the most that it may be.
fn at_most(n: u32, most: usize) -> usize
    ensures { result ≤ most }
{
    most.min(n as usize)
}

// A case over its lists.
fn run_into(set: Setting, input: &Input, ranks: &[u16], work: &mut [u32], pairs: &mut [u16]) {
    let settings = Settings {
        limit: set.limit,
        ranks,
        budget: set.budget,
        rule: set.rule,
    };
    let answer = join::run(input, &settings, work, pairs);
    show_answer(answer);
    io::write_all(STDOUT_FILENO, b" list");
    show_numbers(pairs);
    io::write_all(STDOUT_FILENO, b"\n");
}

// A case with the work list and the pair list of its lengths.
fn run_case(set: Setting, input: &Input, ranks: &[u16]) {
    let words = at_most(set.words, WORDS);
    let places = at_most(set.places, PLACES);
    let mut work = [9u32; WORDS];
    let mut pairs = [9u16; PLACES];
    run_into(set, input, ranks, &mut work[..words], &mut pairs[..places]);
}

// A case by its fifteen numbers, the parts of the two lists being those that its bounds say.
fn run_parts(h: &[u32; NUMBERS], ends: &[u32], halves: &[u16]) {
    let set = read_setting(h);
    let right_end = at_most(h[11], ends.len());
    let left_end = at_most(h[10], right_end);
    let rank_end = at_most(h[14], halves.len());
    let right_stop = at_most(h[13], rank_end);
    let left_stop = at_most(h[12], right_stop);
    let left = Sets {
        ends: &ends[..left_end],
        items: &halves[..left_stop],
    };
    let right = Sets {
        ends: &ends[left_end..right_end],
        items: &halves[left_stop..right_stop],
    };
    let input = Input {
        t: set.t,
        left,
        right,
    };
    run_case(set, &input, &halves[right_stop..rank_end]);
}

// A number of the table and the place after the byte that follows it.
#[derive(Clone, Copy)]
struct Step {
    value: u32,
    next: usize,
}

fn read_number(text: &[u8], at: usize) -> Step {
    let mut v: u64 = 0;
    for i in at..text.len() {
        let b = u64::from(text[i]);
        if b < 48 {
            return Step {
                value: v as u32,
                next: i + 1,
            };
        }
        v = (v * 10 + (b - 48)) % 4294967296;
    }
    Step {
        value: v as u32,
        next: text.len(),
    }
}

// Reads a number into each place of a list, converted; the place after them.
fn read_list<T: Drop, F: Fn(u32) -> T>(text: &[u8], at: usize, out: &mut [T], convert: F) -> usize
    requires { F.IsAlwaysCallable convert }
{
    let mut p = at;
    for place in out {
        let step = read_number(text, p);
        *place = convert(step.value);
        p = step.next;
    }
    p
}

// Writes a name, and returns the place after its colon.
fn show_name(text: &[u8], at: usize) -> usize {
    for i in at..text.len() {
        let b = text[i];
        if b == b':' {
            return i + 1;
        }
        let one = [b];
        io::write_all(STDOUT_FILENO, &one);
    }
    text.len()
}

// The case of the line that begins at a place; the place of the next.
fn run_line(text: &[u8], at: usize) -> usize {
    let start = show_name(text, at);
    let mut h = [0u32; NUMBERS];
    let lists = read_list(text, start, &mut h, |n| n);
    let mut ends = [0u32; ENDS];
    let items = read_list(text, lists, &mut ends[..at_most(h[11], ENDS)], |n| n);
    let mut halves = [0u16; HALVES];
    let next = read_list(
        text,
        items,
        &mut halves[..at_most(h[14], HALVES)],
        |n| (n % 65536) as u16,
    );
    run_parts(&h, &ends, &halves);
    next
}

fn run_lines(text: &[u8]) {
    let first = read_number(text, 0);
    let lines = at_most(first.value, LINES);
    let mut at = first.next;
    for _ in 0..lines {
        at = run_line(text, at);
    }
}

fn main() {
    let mut text = io::large_buffer();
    io::read_full(STDIN_FILENO, &mut text);
    run_lines(&text);
}
