// The path of a left set that is longer than the limit: the items with its first ranks, in any order.
ghost use Rattle.std.specs.Prelude.{◌≡◌, ◌*◌, ◌≤◌, ◌<◌, min, max, length};
ghost use Rattle.lists.specs.Lists.{count, upto};
ghost use Rattle.bit_sets.specs.BitSets.{bit_at};
ghost use Rattle.merge_rows.specs.FirstRanks.{Ranked, PathRoom, PathTaken, LeastTwo, RanksMarked, NthDigit, NthMember};
ghost use Rattle.merge_rows.specs.FirstRanks.{MembersRoom, Border, UpToTaken};

use bit_sets::{insert, ones_of};

// The words of a bit set of ranks.
const RANK_WORDS: usize = 64;

// How many numbers 16 bits can hold.
const HALF: u32 = 65536;

// No key is as great.
const NO_KEY: u32 = 4294967295;

// The two least of the numbers that rank and item make.
#[derive(Clone, Copy)]
pub struct Two {
    pub first: u32,
    pub second: u32,
}

fn lower(a: u32, b: u32) -> u32
    ensures { result ≡ min a b }
{
    if a < b { a } else { b }
}

fn higher(a: u32, b: u32) -> u32
    ensures { result ≡ max a b }
{
    if a < b { b } else { a }
}

// The two least keys of a set, in one pass and without a branch on what it holds.
fn least_two(set: &[u16], ranks: &[u16]) -> Two
    requires { Ranked ranks.now set.now }
    ensures { LeastTwo ranks.now set.now result }
{
    let mut first = NO_KEY;
    let mut second = NO_KEY;
    for &x in set {
        let key = HALF * (ranks[x as usize] as u32) + (x as u32);
        second = lower(second, higher(first, key));
        first = lower(first, key);
    }
    Two {
        first: first,
        second: second,
    }
}

// The path of one or two items.
fn take_two(set: &[u16], ranks: &[u16], limit: usize, path: &mut [u16]) -> usize
    requires room { PathRoom limit ranks.now set.now path.old }
    requires few { limit ≤ 2 }
    ensures { PathTaken limit ranks.now set.now path.new result }
{
    let two = least_two(set, ranks);
    path[0] = (two.first % HALF) as u16;
    path[1] = (two.second % HALF) as u16;
    limit
}

// Makes the ranks of a set members.
fn mark_ranks(words: &mut [u64], set: &[u16], ranks: &[u16])
    requires ranked { Ranked ranks.now set.now }
    requires wide { length ranks.now ≤ 64 * length words.old }
    ensures { RanksMarked ranks.now set.now words.old words.new }
{
    for &x in set {
        insert(words, ranks[x as usize] as usize);
    }
}

// The n-th digit 1 of a word that has so many.
fn nth_digit(word: u64, n: usize) -> usize
    requires some { 0 < n }
    requires enough { n ≤ count (bit_at word) (upto 64) }
    ensures { NthDigit word n result }
{
    let mut rest = word;
    for _ in 1..n {
        rest = rest & (rest - 1);
    }
    u64::trailing_zeros(rest) as usize
}

// The n-th member of a set that has so many.
fn nth_member(words: &[u64], n: usize) -> usize
    requires { MembersRoom words.now n }
    ensures { NthMember words.now n result }
{
    let mut left = n;
    for (w, &word) in words.iter().enumerate() {
        let ones = ones_of(word);
        if left <= ones {
            return 64 * w + nth_digit(word, left);
        }
        left -= ones;
    }
    0
}

// The rank up to which as many items of a longer set come as the limit says.
fn border_rank(set: &[u16], ranks: &[u16], limit: usize) -> usize
    requires ranked { Ranked ranks.now set.now }
    requires some { 0 < limit }
    requires longer { limit < length set.now }
    ensures { Border limit ranks.now set.now result }
{
    let mut words = [0u64; RANK_WORDS];
    mark_ranks(&mut words, set, ranks);
    nth_member(&words, limit)
}

// The items of a set with ranks up to one.
fn take_up_to(set: &[u16], ranks: &[u16], last: usize, path: &mut [u16]) -> usize
    requires ranked { Ranked ranks.now set.now }
    requires room { length set.now ≤ length path.old }
    ensures { UpToTaken ranks.now set.now last path.new result }
{
    let mut n: usize = 0;
    for &x in set {
        path[n] = x;
        n += usize::from((ranks[x as usize] as usize) <= last);
    }
    n
}

// The path of a set that is longer than the limit.
pub fn take_path(set: &[u16], ranks: &[u16], limit: usize, path: &mut [u16]) -> usize
    requires { PathRoom limit ranks.now set.now path.old }
    ensures { PathTaken limit ranks.now set.now path.new result }
{
    if limit <= 2 {
        return take_two(set, ranks, limit, path);
    }
    let last = border_rank(set, ranks, limit);
    take_up_to(set, ranks, last, path)
}
