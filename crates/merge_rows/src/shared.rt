// What the rows of a list of items share.
ghost use Rattle.std.specs.Prelude.{◌≡◌, ◌&&◌, ℕ, ◌+◌};
ghost use Rattle.lists.specs.Lists.{all};
ghost use Rattle.bit_sets.specs.BitSets.{bit_at};
ghost use Rattle.merge_rows.specs.Words.{digit, ReadRoom};

use signatures::double_at;

// Those digits of a word that the words of 64 bits of all items of a list have, the word of item 0 being the one at from.
pub fn shared(work: &[u32], from: usize, list: &[u16], word: u64) -> u64
    requires { ReadRoom from list.now work.now }
    ensures { (j : ℕ) → bit_at result j
        ≡ (bit_at word j && all (λ x. digit work.now (from + x) j) list.now) }
{
    let mut rest = word;
    for &item in list {
        if rest == 0 {
            return 0;
        }
        let x = item as usize;
        rest = rest & double_at(work, 2 * (from + x));
    }
    rest
}
