// What the writer of a tag file means (document 01, "Tag file"): its answer, its tests and its file, defined in specs/, and in proofs/
// the laws about them. The code that meets them is in `tag_writer`.
#![tactic(auto)]

ghost use Rattle.std.specs.Prelude.{◌≡◌};
ghost use Rattle.tag_writer_spec.specs.Writer.{write_words};

use sets::{Refusal, head_of};

// The words of the writer's answer at the C boundary.
pub fn write_words(answer: Result<usize, Refusal>) -> [u64; 4]
    ensures { result ≡ write_words answer }
{
    match answer {
        Ok(length) => [0, 0, 0, length as u64],
        Err(why) => {
            let head = head_of(why);
            [head.number, head.first, head.second, 0]
        }
    }
}
