// Whether the second of two rising parts of a list of words has every word of the first. Each word of the first is looked for in the
// second, from the end that the caller names: the one that ends sooner if a word is missing.
ghost use Rattle.std.specs.Prelude.{◌≡◌, ◌<◌};
ghost use Rattle.lists.specs.Lists.{subset, slice};
ghost use Rattle.words.specs.Merges.{Rising, Skipped, Passed};

// Goes back in work[c..e] to its last word that is not above the last word of work[a..b], and returns the place after it.
fn skip_higher(work: &[u32], a: usize, b: usize, c: usize, e: usize) -> usize
    requires a_lt_b { a < b }
    requires rising { Rising a b work.now }
    requires rising_2 { Rising c e work.now }
    ensures { Skipped a b c e work.now result }
{
    let x = work[b - 1];
    let mut j = e;
    while c < j {
        if work[j - 1] <= x {
            return j;
        }
        j -= 1;
    }
    j
}

// Whether every word of work[a..b] is in work[c..e]; the last is looked for first.
fn search_down(work: &[u32], a: usize, b: usize, c: usize, e: usize) -> bool
    requires rising { Rising a b work.now }
    requires rising_2 { Rising c e work.now }
    ensures { result ≡ subset (slice a b work.now) (slice c e work.now) }
{
    let mut j = e;
    for i in (a..b).rev() {
        j = skip_higher(work, a, i + 1, c, j);
        if j <= c {
            return false;
        }
        if work[i] != work[j - 1] {
            return false;
        }
        j -= 1;
    }
    true
}

// Goes on in work[c..e] to its first word that is not below the first word of work[a..b], and returns its place.
fn skip_lower(work: &[u32], a: usize, b: usize, c: usize, e: usize) -> usize
    requires a_lt_b { a < b }
    requires rising { Rising a b work.now }
    requires rising_2 { Rising c e work.now }
    ensures { Passed a b c e work.now result }
{
    let x = work[a];
    let mut j = c;
    while j < e {
        if x <= work[j] {
            return j;
        }
        j += 1;
    }
    j
}

// The same; the first is looked for first.
fn search_up(work: &[u32], a: usize, b: usize, c: usize, e: usize) -> bool
    requires rising { Rising a b work.now }
    requires rising_2 { Rising c e work.now }
    ensures { result ≡ subset (slice a b work.now) (slice c e work.now) }
{
    let mut j = c;
    for i in a..b {
        j = skip_lower(work, i, b, j, e);
        if e <= j {
            return false;
        }
        if work[i] != work[j] {
            return false;
        }
        j += 1;
    }
    true
}

// The same, from the end that is asked for.
pub fn subset_words(work: &[u32], upward: bool, a: usize, b: usize, c: usize, e: usize) -> bool
    requires rising { Rising a b work.now }
    requires rising_2 { Rising c e work.now }
    ensures { result ≡ subset (slice a b work.now) (slice c e work.now) }
{
    if upward {
        return search_up(work, a, b, c, e);
    }
    search_down(work, a, b, c, e)
}
