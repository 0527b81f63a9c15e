// What the search for the first left set means: its answer, defined in specs/, and in proofs/ the laws about it that need no code. The
// code that meets it is in `first_search`.
#![tactic(auto)]

use sets::{Refusal, head_of};

// What a search found: the place of the left set, if there is one, and how many were compared.
#[derive(Clone, Copy)]
pub struct Search {
    pub place: Option<usize>,
    pub compared: usize,
}

ghost use Rattle.std.specs.Prelude.{◌≡◌};
ghost use Rattle.first_search_spec.specs.First.{first_words};

// The words of the answer at the C boundary.
pub fn first_words(answer: Result<Search, Refusal>) -> [u64; 6]
    ensures { result ≡ first_words answer }
{
    match answer {
        Ok(search) => {
            let (found, place) = match search.place {
                Some(place) => (1, place as u64),
                None => (0, 0),
            };
            [0, 0, 0, found, place, search.compared as u64]
        }
        Err(why) => {
            let head = head_of(why);
            [head.number, head.first, head.second, 0, 0, 0]
        }
    }
}
