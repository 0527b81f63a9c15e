// Collections of sets and what is said of them: sides, limits, verdicts, refusals with their words, and how many entries a
// collection has. What each means is defined in specs/. Each operation's answer is declared by the crate that owns it.

#![tactic(auto)]

ghost use Rattle.std.specs.Prelude.{◌≡◌, length};
ghost use Rattle.sets.specs.Collections.{entries, lent_sets};
ghost use Rattle.sets.specs.Refusals.{side_number, row_of};

// The greatest count of items, T.
pub const MAX_ITEMS: u32 = 4096;
// The greatest number of sets in a collection.
pub const MAX_SETS: usize = 4096;
// The greatest number of item entries in a collection.
pub const MAX_ENTRIES: usize = 65535;
// The greatest number of items in a set.
pub const MAX_SET_LENGTH: usize = 255;
// The greatest depth limit of a join.
pub const MAX_LIMIT: u32 = 255;

// The two collections of a join: left sets (kits) and right sets (stacks).
#[derive(Clone, Copy, PartialEq, Eq)]
pub enum Side {
    Left,
    Right,
}

// A collection of sets as it is lent: for each set where its items end, and the items of all sets, set by set.
#[derive(Clone, Copy)]
pub struct Sets<'a> {
    pub ends: &'a [u32],
    pub items: &'a [u16],
}

impl<'a> Sets<'a> {
    // How many sets there are.
    pub fn len(&self) -> usize
        ensures { result ≡ length (lent_sets self.now).ends }
    {
        self.ends.len()
    }

    // How many item entries they have.
    pub fn entries(&self) -> usize
        ensures { result ≡ entries (lent_sets self.now).ends }
    {
        let ends = self.ends;
        match ends.last() {
            Some(end) => *end as usize,
            None => 0,
        }
    }
}

// Why an operation gave no result: one variant for each row of the refusal table. A `usize` is the byte place of the record at fault,
// or the place of the bad set.
#[derive(Clone, Copy)]
pub enum Refusal {
    Malformed(usize),
    NumberUsed(usize),
    TooMany(usize),
    ShortOutput,
    BadSet(Side, usize),
    BadSettings,
    ShortWork,
    Spent,
    ShortPairs,
    Overlong(usize),
}

// The three words that every answer begins with: the number of a refusal, and what returns with it.
#[derive(Clone, Copy)]
pub struct Head {
    pub number: u64,
    pub first: u64,
    pub second: u64,
}

// The number of a side.
impl From<Side> for u64 {
    ghost from_gives = { λ side number. number ≡ side_number side };

    fn from(side: Side) -> u64 {
        match side {
            Side::Left => 0,
            Side::Right => 1,
        }
    }
}

// The refusal table: the number of a refusal, and what returns with it.
pub fn head_of(why: Refusal) -> Head
    ensures { (result.number ≡ (row_of why).number) × (result.first ≡ (row_of why).first) × (result.second ≡ (row_of why).second) }
{
    match why {
        Refusal::Malformed(place) => Head {
            number: 1,
            first: place as u64,
            second: 0,
        },
        Refusal::NumberUsed(place) => Head {
            number: 2,
            first: place as u64,
            second: 0,
        },
        Refusal::TooMany(place) => Head {
            number: 3,
            first: place as u64,
            second: 0,
        },
        Refusal::ShortOutput => Head {
            number: 4,
            first: 0,
            second: 0,
        },
        Refusal::BadSet(side, place) => Head {
            number: 5,
            first: u64::from(side),
            second: place as u64,
        },
        Refusal::BadSettings => Head {
            number: 6,
            first: 0,
            second: 0,
        },
        Refusal::ShortWork => Head {
            number: 7,
            first: 0,
            second: 0,
        },
        Refusal::Spent => Head {
            number: 8,
            first: 0,
            second: 0,
        },
        Refusal::ShortPairs => Head {
            number: 9,
            first: 0,
            second: 0,
        },
        Refusal::Overlong(place) => Head {
            number: 10,
            first: place as u64,
            second: 0,
        },
    }
}
