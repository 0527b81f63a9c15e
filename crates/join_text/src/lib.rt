// The text of a join of two numbered collections, written into a lent list of bytes: orders their items by rising frequency, joins
// them, and writes the counts, the repeats that were read with them and a line for each pair, or why there is no list. The text is
// defined in specs/.
#![tactic(auto)]

ghost use Rattle.std.specs.Prelude.{◌≡◌, length};
ghost use Rattle.inputs.specs.Input.{lent_input};
ghost use Rattle.join_text.specs.JoinText.{settings_under, program_settings, join_text, FillsText};
ghost use Rattle.join_text.specs.Inner.{Numbered};

use inputs::Input;
use join_spec::{Rule, Settings};
use lists::filled;
use tag_file::Repeats;
use text::answer_text::put_answer;
use text::number_lines::put_refusal;

// The most pairs that are listed.
pub const MAX_PAIRS: usize = 8192;
// The depth limit and the budget of the join.
const LIMIT: u32 = 2;

const BUDGET: u32 = 0xFFFFFFFF;
// The words of the work list, and the places of the pair list, two a pair.
const WORDS: usize = 16384;

const PLACES: usize = 2 * MAX_PAIRS;

// The text of a join of ordered collections.
fn list_ordered(
    repeats: Repeats,
    input: &Input,
    left_numbers: &[u16],
    right_numbers: &[u16],
    ranks: &[u16],
    text: &mut [u8],
) -> usize
    requires { Numbered left_numbers.now input.now.left.ends.now right_numbers.now input.now.right.ends.now text.old }
    ensures { FillsText (join_text repeats left_numbers.now right_numbers.now (lent_input input.now)
        (settings_under ranks.now)) text.old result text.new }
{
    let mut work: [u32; WORDS] = filled(0);
    let mut pairs: [u16; PLACES] = filled(0);
    let settings = Settings {
        limit: LIMIT,
        ranks,
        budget: BUDGET,
        rule: Rule::Merge,
    };
    let answer = join::run(input, &settings, &mut work, &mut pairs);
    put_answer(text, answer, repeats, &pairs, left_numbers, right_numbers)
}

// The text of a join of collections: their items are ordered by rising frequency first.
pub fn list_loaded(
    repeats: Repeats,
    input: &Input,
    left_numbers: &[u16],
    right_numbers: &[u16],
    ranks: &mut [u16],
    text: &mut [u8],
) -> usize
    requires numbered { Numbered left_numbers.now input.now.left.ends.now right_numbers.now input.now.right.ends.now text.old }
    requires ranks_len { length ranks.old ≡ input.now.t }
    ensures { FillsText (join_text repeats left_numbers.now right_numbers.now (lent_input input.now)
        (program_settings (lent_input input.now))) text.old result text.new }
{
    match item_order::order(input, false, ranks) {
        Ok(()) => list_ordered(repeats, input, left_numbers, right_numbers, ranks, text),
        Err(why) => put_refusal(text, why),
    }
}
