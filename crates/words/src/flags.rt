// Tables of flags, one for each number below their length: flag the words of a part, keep the flagged words of another part, and take
// the flags away again.
ghost use Rattle.std.specs.Prelude.{◌≡◌, length, ltb, true};
ghost use Rattle.lists.specs.Lists.{all};
ghost use Rattle.words.specs.flags.Flags.{Below, Flagged, FlagsSet, is_flagged, Clear, Behind, Kept};

// How many flags a table has.
const FLAG_ROOM: usize = 4096;

// A table without a flag.
pub fn clear_flags() -> [u8; FLAG_ROOM]
    ensures { Clear result }
{
    [0u8; FLAG_ROOM]
}

// Makes the flag of each word of a part 1, to flag it, or 0, to take its flag away.
pub fn set_flags(part: &[u32], flag: u8, flags: &mut [u8])
    requires { all (λ s. ltb s (length flags.old)) part.now ≡ true }
    ensures { FlagsSet flag part.now flags.old flags.new }
{
    for s in part {
        flags[*s as usize] = flag;
    }
}

// Writes the flagged words of a part from out on, and returns where they end. Every word is stored, and the place moves on only past
// the flagged ones: no branch depends on the words.
pub fn keep_flagged(work: &mut [u32], c: usize, e: usize, out: usize, flags: &[u8]) -> usize
    requires below { Below (length flags.now) c e work.old }
    requires behind { Behind c e out work.old }
    requires flagged { Flagged (is_flagged flags.now) flags.now }
    ensures { Kept (is_flagged flags.now) c e out work.old work.new result }
{
    let mut n = out;
    for j in c..e {
        let x = work[j];
        work[n] = x;
        n += flags[x as usize] as usize;
    }
    n
}
