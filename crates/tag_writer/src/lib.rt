// The writer of a tag file (document 01, "Tag file"): a record for each left set (kit), then for each right set (stack), by
// `record_writer`. What it answers and leaves in the lent output is defined in `tag_writer_spec`.
#![tactic(auto)]

ghost use Rattle.std.specs.Prelude.{◌≡◌, length};
ghost use Rattle.tag_file.specs.Loading.{read_lists};
ghost use Rattle.tag_writer_spec.specs.Writer.{file_bytes, table_test, numbered_test, lists_test};
ghost use Rattle.tag_writer_spec.specs.Writer.{written_within, file_after, WriteCall};
ghost use Rattle.tag_writer_spec.specs.Inner.{GoodLists};

use crate::record_writer::{TAG_LENGTH, put_side, side_length};
use sets::{Refusal, Side};
use tag_file::{Lists, NumberedSets};

pub mod record_writer;

// T is within its limit, and the tag table is as long as it says.
fn test_table(t: u32, tags: &[u8]) -> Result<(), Refusal>
    ensures { result ≡ table_test t tags.now }
{
    inputs::test_items(t)?;
    if tags.len() != TAG_LENGTH * (t as usize) {
        return Err(Refusal::BadSettings);
    }
    Ok(())
}

// A side has no bad set, and then as many numbers as sets; else the shorter length is the place.
fn test_numbered(t: u32, side: Side, from: &NumberedSets) -> Result<(), Refusal>
    ensures { result ≡ numbered_test t side from.now.numbers.now from.now.sets.ends.now from.now.sets.items.now }
{
    let numbers = from.numbers.len();
    let sets = from.sets.ends.len();
    inputs::test_side(t, side, &from.sets)?;
    if numbers == sets {
        return Ok(());
    }
    if numbers < sets {
        return Err(Refusal::BadSet(side, numbers));
    }
    Err(Refusal::BadSet(side, sets))
}

// What is lent can be written: the table, then the left sets, then the right sets.
fn test_lists(t: u32, lists: &Lists) -> Result<(), Refusal>
    ensures { result ≡ lists_test t (read_lists lists.now) }
{
    test_table(t, lists.tags)?;
    test_numbered(t, Side::Left, &lists.left)?;
    test_numbered(t, Side::Right, &lists.right)
}

// Writes the whole file; neither side has a fault.
fn write_good(lists: &Lists, file: &mut [u8]) -> Result<usize, Refusal>
    requires { GoodLists (read_lists lists.now) }
    ensures answer { result ≡ written_within (length file.old) (file_bytes (read_lists lists.now)) }
    ensures file { file.new ≡ file_after result (file_bytes (read_lists lists.now)) file.old }
{
    let left = side_length(&lists.left.sets);
    let right = side_length(&lists.right.sets);
    if file.len() < left + right {
        file.fill(0);
        return Err(Refusal::ShortOutput);
    }
    put_side(Side::Left, lists.tags, &lists.left, file, 0);
    put_side(Side::Right, lists.tags, &lists.right, file, left);
    Ok(left + right)
}

// Writes the left sets' records, then the right sets', and answers with the length.
pub fn write(t: u32, lists: &Lists, file: &mut [u8]) -> Result<usize, Refusal>
    ensures { WriteCall t (read_lists lists.now) file.old file.new result }
{
    test_lists(t, lists)?;
    write_good(lists, file)
}
