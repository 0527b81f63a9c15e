// Parts of a list of words, copied to words above them.
ghost use Rattle.words.specs.flags.Flags.{Behind};
ghost use Rattle.words.specs.copies.Copies.{Copied};

// Copies a part of the work list to the words from top on, and returns where the copy ends.
pub fn copy_words(work: &mut [u32], from: usize, to: usize, top: usize) -> usize
    requires { Behind from to top work.old }
    ensures { Copied from to top work.old work.new result }
{
    let mut n = top;
    for i in from..to {
        work[n] = work[i];
        n += 1;
    }
    n
}
