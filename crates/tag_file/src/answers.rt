// The answers of the record reader and of both loads as words at the C boundary.
ghost use Rattle.std.specs.Prelude.{◌≡◌};
ghost use Rattle.tag_file.specs.answers.Words.{read_words, load_words};

use crate::{Loaded, ReadAnswer, RecordRead, Repeats};
use sets::{Refusal, head_of};

// The words of the reader's answer at the C boundary.
pub fn read_words(read: RecordRead) -> [u64; 10]
    ensures { result ≡ read_words read }
{
    let answer = read.answer;
    match answer {
        ReadAnswer::Record {
            side,
            number,
            count,
            tags_at,
            next,
        } => {
            [
                0,
                0,
                0,
                0,
                u64::from(side),
                number as u64,
                count as u64,
                tags_at as u64,
                next as u64,
                read.repeats as u64,
            ]
        }
        ReadAnswer::NoMore => [0, 0, 0, 1, 0, 0, 0, 0, 0, 0],
        ReadAnswer::Refused(why) => {
            let head = head_of(why);
            [head.number, head.first, head.second, 0, 0, 0, 0, 0, 0, 0]
        }
    }
}

// The words of the loader's answer at the C boundary.
pub fn load_words(answer: Result<(Loaded, Repeats), Refusal>) -> [u64; 10]
    ensures { result ≡ load_words answer }
{
    match answer {
        Ok((loaded, repeats)) => [
            0,
            0,
            0,
            loaded.left_sets as u64,
            loaded.right_sets as u64,
            loaded.left_entries as u64,
            loaded.right_entries as u64,
            loaded.tag_count as u64,
            repeats.left as u64,
            repeats.right as u64,
        ],
        Err(why) => {
            let row = head_of(why);
            [row.number, row.first, row.second, 0, 0, 0, 0, 0, 0, 0]
        }
    }
}
