// How often a list of 16-bit numbers falls, and where it may: at the borders of its parts, given by their ends. Counted without a
// branch and in 16 bits, so that the compiler compares eight numbers at once.
ghost use Rattle.std.specs.Prelude.{◌≡◌, ◌≤◌, leb, length};
ghost use Rattle.lists.specs.Lists.{count, slice};
ghost use Rattle.validation.specs.falls.Falls.{greatest, good_ends, falls, border_fall, border_falls};

// How many of the first n numbers are t or more.
pub fn count_high(t: u16, n: usize, list: &[u16]) -> u16
    requires { (n ≤ length list.now) × (n ≤ greatest) }
    ensures { result ≡ count (leb t) (slice 0 n list.now) }
{
    let mut high: u16 = 0;
    for x in &list[..n] {
        high += u16::from(t <= *x);
    }
    high
}

// How many of the first n numbers are not above the number before them.
pub fn count_falls(n: usize, list: &[u16]) -> u16
    requires { (n ≤ length list.now) × (n ≤ greatest) }
    ensures { result ≡ falls (slice 0 n list.now) }
{
    let mut falls: u16 = 0;
    for e in 1..n {
        falls += u16::from(list[e] <= list[e - 1]);
    }
    falls
}

// 1 if the list falls from the last number of a part to the number after it, else 0.
fn border_fall(n: usize, start: usize, end: usize, list: &[u16]) -> u16
    requires { n ≤ length list.now }
    ensures { result ≡ border_fall n start end list.now }
{
    if end <= start {
        return 0;
    }
    if n <= end {
        return 0;
    }
    let last = list[end - 1];
    let next = list[end];
    u16::from(next <= last)
}

// How many of the borders between parts are falls.
pub fn count_border_falls(n: usize, ends: &[u32], list: &[u16]) -> u16
    requires { (n ≤ length list.now) × (length ends.now ≤ greatest) }
    ensures { result ≡ border_falls n 0 ends.now list.now }
{
    let mut falls: u16 = 0;
    let mut start: usize = 0;
    for end in ends {
        let end = *end as usize;
        falls += border_fall(n, start, end, list);
        start = end;
    }
    falls
}

// Whether each end follows the one before it by no more than the longest part may hold.
pub fn good_ends(longest: usize, ends: &[u32]) -> bool
    ensures { result ≡ good_ends longest 0 ends.now }
{
    let mut before: usize = 0;
    for end in ends {
        let end = *end as usize;
        if end < before {
            return false;
        }
        if longest < end - before {
            return false;
        }
        before = end;
    }
    true
}
