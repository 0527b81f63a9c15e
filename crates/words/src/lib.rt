// Parts of a list of words, for any caller. Here are the places of a part and the words as numbers. `subsets`: whether one rising part
// has every word of another. `flags`: tables of flags over words. `found`: words found in another part, by halving. `shared`: what two
// rising parts share. `copies`: parts copied to words above them.
#![tactic(auto)]

ghost use Rattle.std.specs.Prelude.{◌<◌, length};
ghost use Rattle.words.specs.Words.{Word};

pub mod copies;
pub mod flags;
pub mod found;
pub mod shared;
pub mod subsets;

// A part of a list: the places from one on and before another.
#[derive(Clone, Copy)]
pub struct Part {
    pub from: usize,
    pub to: usize,
}

// The word at a place.
pub fn word_at(work: &[u32], i: usize) -> usize
    requires { i < length work.now }
    ensures { Word work.now i result }
{
    work[i] as usize
}
