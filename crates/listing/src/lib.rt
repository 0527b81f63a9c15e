// The text that the program kitlist prints (document 01), written into a lent list of bytes: loads a tag file and writes the text of
// the join of its left sets (kits) with its right sets (stacks), with the repeats that the loader counted, or why there is no list.
// The text is defined in `listing_spec`.
#![tactic(auto)]

ghost use Rattle.std.specs.Prelude.{◌≤◌, length};
ghost use Rattle.sets.specs.Refusals.{unless};
ghost use Rattle.tag_file.specs.Records.{records};
ghost use Rattle.tag_file.specs.Loading.{file_fault};
ghost use Rattle.text.specs.Lines.{refusal_line};
ghost use Rattle.join_text.specs.JoinText.{FillsText};
ghost use Rattle.join_text.specs.Inner.{text_room};
ghost use Rattle.listing_spec.specs.Listing.{max_file, records_text, listing};
ghost use Rattle.listing_spec.specs.Inner.{Within, cut_text};

use inputs::Input;
use join_text::{MAX_PAIRS, list_loaded};
use lists::filled;
use sets::{MAX_ITEMS, MAX_SETS, Refusal, Sets};
use tag_file::{Loaded, NumberedSets, Repeats, TAG_LENGTH};
use text::number_lines::put_refusal;

// The longest file that is read.
pub const MAX_FILE: usize = 65536;
// The bytes of the longest text: 108 for the counts, 50 for the repeats, and twelve for each pair.
pub const TEXT_ROOM: usize = 158 + 12 * MAX_PAIRS;
// The bytes of the tag table, and the items of a side: no file that is read has more tags.
const TABLE: usize = TAG_LENGTH * (MAX_ITEMS as usize);

const ITEMS: usize = MAX_FILE / TAG_LENGTH;

// The text of what was loaded: the counts say how much of each list is filled.
fn list_counted(
    loaded: Loaded,
    repeats: Repeats,
    left: &NumberedSets,
    right: &NumberedSets,
    ranks: &mut [u16],
    text: &mut [u8],
) -> usize
    requires { Within loaded left.now.numbers.now left.now.sets.ends.now left.now.sets.items.now
        right.now.numbers.now right.now.sets.ends.now right.now.sets.items.now ranks.old text.old }
    ensures { FillsText (cut_text loaded repeats
        left.now.numbers.now left.now.sets.ends.now left.now.sets.items.now
        right.now.numbers.now right.now.sets.ends.now right.now.sets.items.now)
        text.old result text.new }
{
    let items = loaded.tag_count;
    let left_sets = loaded.left_sets;
    let right_sets = loaded.right_sets;
    let input = Input {
        t: items as u32,
        left: Sets {
            ends: &left.sets.ends[..left_sets],
            items: &left.sets.items[..loaded.left_entries],
        },
        right: Sets {
            ends: &right.sets.ends[..right_sets],
            items: &right.sets.items[..loaded.right_entries],
        },
    };
    list_loaded(
        repeats,
        &input,
        &left.numbers[..left_sets],
        &right.numbers[..right_sets],
        &mut ranks[..items],
        text,
    )
}

// The text of a file that is not too long. The lists hold every such file without a fault.
fn list_short(file: &[u8], text: &mut [u8]) -> usize
    requires { (length file.now ≤ max_file) × (text_room ≤ length text.old) }
    ensures { FillsText (unless refusal_line (file_fault file.now) (records_text (records file.now)))
        text.old result text.new }
{
    let mut tags: [u8; TABLE] = filled(0);
    let mut left_numbers: [u16; MAX_SETS] = filled(0);
    let mut left_ends: [u32; MAX_SETS] = filled(0);
    let mut left_items: [u16; ITEMS] = filled(0);
    let mut right_numbers: [u16; MAX_SETS] = filled(0);
    let mut right_ends: [u32; MAX_SETS] = filled(0);
    let mut right_items: [u16; ITEMS] = filled(0);
    let mut ranks: [u16; MAX_SETS] = filled(0);
    let answer = tag_loader::load(
        file,
        &mut tags,
        &mut left_numbers,
        &mut left_ends,
        &mut left_items,
        &mut right_numbers,
        &mut right_ends,
        &mut right_items,
    );
    match answer {
        Ok((loaded, repeats)) => {
            let left_sets = Sets {
                ends: &left_ends,
                items: &left_items,
            };
            let left = NumberedSets {
                numbers: &left_numbers,
                sets: left_sets,
            };
            let right_sets = Sets {
                ends: &right_ends,
                items: &right_items,
            };
            let right = NumberedSets {
                numbers: &right_numbers,
                sets: right_sets,
            };
            list_counted(loaded, repeats, &left, &right, &mut ranks, text)
        }
        Err(why) => put_refusal(text, why),
    }
}

// Writes the text of a file, and returns how long it is; beyond it the lent list is as before.
pub fn list_file(file: &[u8], text: &mut [u8; TEXT_ROOM]) -> usize
    ensures { FillsText (listing file.now) text.old result text.new }
{
    if MAX_FILE < file.len() {
        return put_refusal(text, Refusal::ShortWork);
    }
    list_short(file, text)
}
