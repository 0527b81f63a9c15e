// The index of a join: everything the walk reads, laid out once in the lent work list. Both collections as ranks, their signatures,
// the inverted index of the right sets, and the left sets in the order of their paths. Here is what its regions are and hold, and what
// its readers may ask. `regions` says where they lie, `stages` sorts the right sets by least rank and the left sets, `build` builds it
// all.

#![tactic(auto)]

ghost use Rattle.std.specs.Prelude.{◌≡◌};
ghost use Rattle.join_index.specs.Ground.{asks_seen};

use join_spec::Rule;

pub mod build;
pub mod regions;
pub mod stages;

// Where each region of the work list begins. Nothing below the slots changes during the walk. An offsets region and the region that it
// counts from are what one counting sort leaves behind.
#[derive(Clone, Copy)]
pub struct Layout {
    // Where a rank's inverted list begins, counted from index (and from slots): one word a rank and one more.
    pub offsets: usize,
    // The inverted lists: for each rank the places of the right sets that hold it, rising.
    pub index: usize,
    // Where a right set's ranks begin, counted from right_ranks: one word a set and one more.
    pub right_starts: usize,
    // The right sets' ranks, rising, set by set.
    pub right_ranks: usize,
    // The same of the left sets.
    pub left_starts: usize,
    pub left_ranks: usize,
    // How many right sets have a least rank below a rank; an empty set counts as one with the rank after the last. One word a rank and
    // two more.
    pub least_offsets: usize,
    // The right sets by least rank, then the empty ones. Both are filled only if the rule asks which right sets are seen.
    pub by_least: usize,
    // The left sets by their first ranks: those with a common prefix are together.
    pub left_order: usize,
    // Two words a set, low then high.
    pub right_signatures: usize,
    pub left_signatures: usize,
    // A slot for each rank, as long as its inverted list: the candidates of the paths that end in it.
    pub slots: usize,
    // The kept row of each left set: where it begins in the work list (0 if none is kept), and where it ends.
    pub row_starts: usize,
    pub row_ends: usize,
    // The kept rows, up to end: the places of right sets. A place below end fits a word.
    pub rows: usize,
    pub end: usize,
}

// Whether a rule asks which right sets are seen: all but the one that always goes on.
pub fn asks_seen(rule: Rule) -> bool
    ensures { result ≡ asks_seen rule }
{
    match rule {
        Rule::Merge => false,
        Rule::Check => true,
        Rule::Weighed(_) => true,
    }
}
