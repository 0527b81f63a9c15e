// The pair list of a join: left set by left set, and for each the right sets that contain it, by place. Rows that the walk kept are
// copied (`row_pairs`); the others are looked for in the index (`left_search`, from the candidates of `shortlists`). Which rows were
// kept has no bearing on the list.
#![tactic(auto)]

ghost use Rattle.std.specs.Prelude.{◌≡◌, ◌++◌, length, drop};
ghost use Rattle.join_spec.specs.Query.{Query};
ghost use Rattle.join_spec.specs.PairList.{pair_list};
ghost use Rattle.words.specs.flags.Flags.{Clear};
ghost use Rattle.join_index.specs.Asking.{SomeQuery};
ghost use Rattle.join_pairs.specs.Writing.{PairsRoom};
ghost use Rattle.join_pairs.specs.left_search.LeftRows.{LeftRoom, LeftWritten};

use crate::left_search::search_left;
use crate::row_pairs::write_kept;
use join_index::Layout;
use words::word_at;

pub mod left_search;
pub mod row_pairs;
pub mod shortlists;

// Writes the pair list of the query whose index the work list holds. Candidates go into the slots of the work list.
pub fn write_pairs(work: &mut [u32], flags: &mut [u8], lay: Layout, lefts: usize, pairs: &mut [u16])
    requires some_query { SomeQuery (λ q. PairsRoom lay q work.old lefts pairs.old) }
    requires clear { Clear flags.old }
    ensures { (q : Query) → PairsRoom lay q work.old lefts pairs.old
        → pairs.new
        ≡ pair_list q.lefts q.rights ++ drop (length (pair_list q.lefts q.rights)) pairs.old }
{
    let mut n: usize = 0;
    for k in 0..lefts {
        n = write_left(work, flags, lay, k, pairs, n);
    }
}

// Writes the pairs of the left set k with all right sets that contain it: those of its row if one is kept, else they are looked for.
// Returns where they end.
pub fn write_left(
    work: &mut [u32],
    flags: &mut [u8],
    lay: Layout,
    k: usize,
    pairs: &mut [u16],
    at: usize,
) -> usize
    requires some_query { SomeQuery (λ q. LeftRoom lay q work.old k at pairs.old) }
    requires clear_2 { Clear flags.old }
    ensures wrote { LeftWritten lay work.old k at pairs.old work.new
        pairs.new result }
    ensures clear { Clear flags.new }
{
    let starts = lay.row_starts;
    let ends = lay.row_ends;
    let from = word_at(work, starts + k);
    if from == 0 {
        return search_left(work, flags, lay, k, pairs, at);
    }
    let to = word_at(work, ends + k);
    write_kept(&work[from..to], k, pairs, at)
}
