// A tag of a file as two numbers, high byte first: reading one, and comparing two.
ghost use Rattle.std.specs.Prelude.{◌≡◌, ◌+◌, ◌≤◌, ◌<◌, ltb, eqb, length};
ghost use Rattle.sets.specs.Limits.{full_words};
ghost use Rattle.tag_file.specs.Format.{tag_length, tag_at};
ghost use Rattle.tag_index.specs.tag_words.Words.{WordIs, TagIs, tag_value};

// How many numbers four bytes have.
const FULL_WORDS: usize = 4294967296;

// A tag: its first 8 bytes and its last 4, each as a number, high byte first.
#[derive(Clone, Copy)]
pub struct Tag {
    pub hi: usize,
    pub lo: usize,
}

// Four bytes as a number, high byte first.
fn word_at(file: &[u8], at: usize) -> usize
    requires { at + 4 ≤ length file.now }
    ensures { WordIs file.now at result }
{
    let a = usize::from(file[at]);
    let b = usize::from(file[at + 1]);
    let c = usize::from(file[at + 2]);
    let d = usize::from(file[at + 3]);
    ((a * 256 + b) * 256 + c) * 256 + d
}

// The tag at a place.
pub fn tag_at(file: &[u8], at: usize) -> Tag
    requires { at + tag_length ≤ length file.now }
    ensures { TagIs (tag_at file.now at) result }
{
    let a = word_at(file, at);
    let b = word_at(file, at + 4);
    let c = word_at(file, at + 8);
    Tag {
        hi: a * FULL_WORDS + b,
        lo: c,
    }
}

// Whether one tag is below another.
pub fn is_below(a: Tag, b: Tag) -> bool
    requires { (a.lo < full_words) × (b.lo < full_words) }
    ensures { result ≡ ltb (tag_value a) (tag_value b) }
{
    if a.hi == b.hi {
        a.lo < b.lo
    } else {
        a.hi < b.hi
    }
}

// Whether two tags are the same.
pub fn is_same(a: Tag, b: Tag) -> bool
    requires { (a.lo < full_words) × (b.lo < full_words) }
    ensures { result ≡ eqb (tag_value a) (tag_value b) }
{
    a.hi == b.hi && a.lo == b.lo
}
