// Pairs into the pair list from a place on. Where they would pass its end nothing is stored, and only the place moves.
ghost use Rattle.std.specs.Prelude.{◌+◌, ◌*◌, ◌<◌, length};
ghost use Rattle.lists.specs.Writing.{Put};
ghost use Rattle.sets.specs.Limits.{full_words};
ghost use Rattle.bit_sets.specs.BitSets.{digits_from};
ghost use Rattle.merge_rows.specs.ShortLists.{pairs_with, Listed, WordPairs, PairsRoom, right_places, CopyFrom, CopyRoom};

use bit_sets::ones_of;

// Writes the pairs of left set k with the right sets of a word, whose first is base.
fn put_pairs(word: u64, k: usize, base: usize, pairs: &mut [u16], at: usize) -> usize
    requires { PairsRoom word k base at pairs.old }
    ensures { Put pairs.old at (pairs_with k (digits_from 64 base word)) result pairs.new }
{
    let mut rest = word;
    let mut end = at;
    while rest != 0 {
        pairs[end] = k as u16;
        pairs[end + 1] = (base + u64::trailing_zeros(rest) as usize) as u16;
        rest = rest & (rest - 1);
        end += 2;
    }
    end
}

// The same where they fit the list.
pub fn list_word(word: u64, k: usize, base: usize, pairs: &mut [u16], at: usize) -> usize
    requires places { WordPairs k base }
    requires small { at + 2 * length (digits_from 64 base word) < full_words }
    ensures { Listed pairs.old at (pairs_with k (digits_from 64 base word)) result pairs.new }
{
    let end = at + 2 * ones_of(word);
    if pairs.len() < end {
        return end;
    }
    put_pairs(word, k, base, pairs, at)
}

// Copies n pairs from a place on, with k as their left place.
fn put_copy(pairs: &mut [u16], from: usize, n: usize, k: usize, at: usize) -> usize
    requires { CopyRoom from n k at pairs.old }
    ensures { Put pairs.old at (pairs_with k (right_places pairs.old from n)) result pairs.new }
{
    for i in 0..n {
        let s = pairs[from + 2 * i + 1];
        pairs[at + 2 * i] = k as u16;
        pairs[at + 2 * i + 1] = s;
    }
    at + 2 * n
}

// The same where they fit the list.
pub fn list_copy(pairs: &mut [u16], from: usize, n: usize, k: usize, at: usize) -> usize
    requires { CopyFrom from n k at }
    ensures { Listed pairs.old at (pairs_with k (right_places pairs.old from n)) result pairs.new }
{
    let end = at + 2 * n;
    if pairs.len() < end {
        return end;
    }
    put_copy(pairs, from, n, k, at)
}
