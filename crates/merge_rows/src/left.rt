// One left set: as an equal one before it, or block by block.
ghost use Rattle.std.specs.Prelude.{◌≡◌, true, [], ℕ, ◌+◌, ◌-◌, ◌*◌, ◌/◌, ◌<◌, ◌≤◌, length, get_or};
ghost use Rattle.sets.specs.Limits.{full_words};
ghost use Rattle.sets.specs.Collections.{lent_sets, sets_in};
ghost use Rattle.inputs.specs.Input.{lent_input, left_sets, right_sets};
ghost use Rattle.signatures.specs.item_bits.Bits.{position_table};
ghost use Rattle.bit_sets.specs.BitSets.{digits_from};
ghost use Rattle.merge_rows.specs.SignedSets.{Signs};
ghost use Rattle.merge_rows.specs.Yields.{Yield, yield_among, yield_of, Yielded};
ghost use Rattle.merge_rows.specs.Meeting.{BlockThere, Blocks, PathThere, CountersHeld, CountersThere, HintRoom, KeptBelow, Earlier};
ghost use Rattle.merge_rows.specs.Meeting.{Laid, LeftsThere, Alike, CountersRoom, CountersStored};
ghost use Rattle.merge_rows.specs.Merging.{SetThere, LeftAdded, merge_query};

use crate::listed::{list_copy, list_word};
use crate::paths::take_path;
use crate::shared::shared;
use crate::signed::{count_drops, start_of};
use crate::{Met, Regions};
use bit_sets::ones_of;
use inputs::Input;
use join_spec::Settings;
use sets::Sets;
use signatures::sign_set;

// All digits of a word.
const ALL: u64 = 18446744073709551615;

// The candidates of left set k in block q: those that hold more are listed, the others are checked in vain.
fn meet_block(
    work: &mut [u32],
    r: Regions,
    table: &[u8; 256],
    t: usize,
    sets: &Sets,
    k: usize,
    q: usize,
    more: &[u16],
    word: u64,
    pairs: &mut [u16],
    m: Met,
) -> Met
    requires there { BlockThere r t (lent_sets sets.now) work.old k q more.now word m }
    requires positions { table.now ≡ position_table }
    ensures yielded { Yielded k
        (yield_among (sets_in (lent_sets sets.now)) more.now (digits_from 64 (64 * q) word))
        m result pairs.old pairs.new }
    ensures signs { Signs r.signatures (sets_in (lent_sets sets.now))
        work.old work.new }
{
    let at = r.signatures;
    let held = shared(work, t * (q + 1), more, word);
    let end = list_word(held, k, 64 * q, pairs, m.at);
    if held == word {
        return Met {
            at: end,
            confirmed: m.confirmed,
            dropped: m.dropped,
            falses: m.falses,
        };
    }
    let mark = sign_set(more, table, 0, more.len());
    let others = word ^ held;
    let dropped = count_drops(work, at, table, sets, mark, 64 * q, others);
    Met {
        at: end,
        confirmed: m.confirmed,
        dropped: m.dropped + dropped,
        falses: m.falses + (ones_of(others) - dropped),
    }
}

// Left set k block by block.
fn meet_blocks(
    work: &mut [u32],
    r: Regions,
    table: &[u8; 256],
    t: usize,
    sets: &Sets,
    k: usize,
    path: &[u16],
    more: &[u16],
    blocks: u64,
    pairs: &mut [u16],
    m: Met,
) -> Met
    requires there { PathThere r t (lent_sets sets.now) work.old k path.now more.now m }
    requires blocks { Blocks (sets_in (lent_sets sets.now)) path.now blocks }
    requires positions { table.now ≡ position_table }
    ensures yielded { Yielded k
        (yield_of (sets_in (lent_sets sets.now)) path.now more.now)
        m result pairs.old pairs.new }
    ensures signs { Signs r.signatures (sets_in (lent_sets sets.now))
        work.old work.new }
{
    let mut met = m;
    let mut rest = blocks;
    while rest != 0 {
        let q = u64::trailing_zeros(rest) as usize;
        let word = shared(work, t * (q + 1), path, ALL);
        if word != 0 {
            met = meet_block(work, r, table, t, sets, k, q, more, word, pairs, met);
        }
        rest = rest & (rest - 1);
    }
    met
}

// The words of left set k: what the left sets before it came to.
pub fn store_counters(work: &mut [u32], counters: usize, k: usize, m: Met)
    requires { CountersRoom counters k m work.old }
    ensures { CountersStored counters k m work.old work.new }
{
    let i = counters + 3 * k;
    work[i] = m.at as u32;
    work[i + 1] = m.dropped as u32;
    work[i + 2] = m.falses as u32;
}

// Left set k as left set j, which is equal to it.
fn repeat_left(work: &[u32], counters: usize, j: usize, k: usize, pairs: &mut [u16], m: Met) -> Met
    requires { CountersThere counters j k m work.now pairs.old }
    ensures { (y : Yield) → CountersHeld counters j work.now m.at pairs.old y
        → Yielded k y m result pairs.old pairs.new }
{
    let i = counters + 3 * j;
    let from = work[i] as usize;
    let to = work[i + 3] as usize;
    let dropped = (work[i + 4] - work[i + 1]) as usize;
    let falses = (work[i + 5] - work[i + 2]) as usize;
    let end = list_copy(pairs, from, (to - from) / 2, k, m.at);
    Met {
        at: end,
        confirmed: m.confirmed,
        dropped: m.dropped + dropped,
        falses: m.falses + falses,
    }
}

// A left set that may be equal to left set k, or any number: the last one whose first and last item and length led to the same word.
// That word then names k.
fn swap_hint(work: &mut [u32], r: Regions, lefts: usize, set: &[u16], k: usize) -> usize
    requires { HintRoom r lefts k set.now work.old }
    ensures { KeptBelow r.hints work.old work.new }
{
    let n = set.len();
    let sum = (set[0] as u32) * 67 + (set[n - 1] as u32) + 1021 * (n as u32);
    let i = r.hints + (sum % (lefts as u32)) as usize;
    let j = work[i] as usize;
    work[i] = k as u32;
    j
}

// Whether two lists are equal.
fn same_items(a: &[u16], b: &[u16]) -> bool
    ensures { result ≡ true → a.now ≡ b.now }
{
    if a.len() != b.len() {
        return false;
    }
    for e in 0..a.len() {
        if a[e] != b[e] {
            return false;
        }
    }
    true
}

// Whether j is a left set before k with the items of left set k.
fn is_earlier(sets: &Sets, j: usize, k: usize, set: &[u16]) -> bool
    requires { LeftsThere (lent_sets sets.now) k }
    ensures { result ≡ true → Earlier (lent_sets sets.now) j k set.now }
{
    if k <= j {
        return false;
    }
    let ends = sets.ends;
    let items = sets.items;
    let start = start_of(ends, j);
    let end = ends[j] as usize;
    same_items(&items[start..end], set)
}

// Left set k by its path: nothing where no block has all of it.
fn meet_path(
    work: &mut [u32],
    r: Regions,
    table: &[u8; 256],
    input: &Input,
    k: usize,
    set: &[u16],
    path: &[u16],
    more: &[u16],
    pairs: &mut [u16],
    m: Met,
) -> Met
    requires there { PathThere r (lent_input input.now).T (lent_input input.now).right work.old k path.now more.now m }
    requires laid { Laid r (lent_input input.now) work.old }
    requires hint { HintRoom r (length (lent_input input.now).left.ends) k set.now work.old }
    requires lefts { LeftsThere (lent_input input.now).left k }
    requires alike { Alike r (left_sets (lent_input input.now)) work.old k m.at set.now pairs.old
        (yield_of (right_sets (lent_input input.now)) path.now more.now) }
    requires positions { table.now ≡ position_table }
    ensures yielded { Yielded k
        (yield_of (right_sets (lent_input input.now)) path.now more.now)
        m result pairs.old pairs.new }
    ensures signs { Signs r.signatures (right_sets (lent_input input.now))
        work.old work.new }
{
    let lefts = input.left.len();
    let blocks = shared(work, 0, path, ALL);
    if blocks == 0 {
        return m;
    }
    let j = swap_hint(work, r, lefts, set, k);
    if is_earlier(&input.left, j, k, set) {
        return repeat_left(work, r.counters, j, k, pairs, m);
    }
    let t = input.t as usize;
    meet_blocks(
        work,
        r,
        table,
        t,
        &input.right,
        k,
        path,
        more,
        blocks,
        pairs,
        m,
    )
}

// The pairs since a place are confirmed checks.
fn confirm(m: Met, from: usize) -> Met
    requires order { from ≤ m.at }
    requires small { m.confirmed + (m.at - from) / 2 < full_words }
    ensures { result ≡ record { at = m.at; confirmed = m.confirmed + (m.at - from) / 2; dropped = m.dropped; falses = m.falses } }
{
    Met {
        at: m.at,
        confirmed: m.confirmed + (m.at - from) / 2,
        dropped: m.dropped,
        falses: m.falses,
    }
}

// Left set k: an empty one comes to nothing; one within the limit is its own path; a longer one is checked with the candidates of its
// path.
pub fn meet_left(
    work: &mut [u32],
    r: Regions,
    table: &[u8; 256],
    input: &Input,
    settings: &Settings,
    k: usize,
    set: &[u16],
    path: &mut [u16],
    pairs: &mut [u16],
    m: Met,
) -> Met
    requires there { SetThere r (lent_input input.now) settings.now.limit settings.now.ranks.now
        work.old k set.now path.old pairs.old m }
    requires positions { table.now ≡ position_table }
    ensures added { LeftAdded
        (merge_query (lent_input input.now) settings.now.limit settings.now.ranks.now)
        k set.now m result pairs.old pairs.new }
    ensures signs { Signs r.signatures (right_sets (lent_input input.now))
        work.old work.new }
{
    let n = set.len();
    if n == 0 {
        return m;
    }
    let limit = settings.limit as usize;
    if n <= limit {
        return meet_path(work, r, table, input, k, set, set, &set[..0], pairs, m);
    }
    let size = take_path(set, settings.ranks, limit, path);
    let met = meet_path(work, r, table, input, k, set, &path[..size], set, pairs, m);
    confirm(met, m.at)
}
