// The static library for C and Rust: thin exported functions, each over one proved operation. Names, parameters and answer words
// are those of include/kitfinder.h; what the words hold is defined with each operation's answer.
#![tactic(auto)]

ghost use Rattle.std.specs.Prelude.{◌≡◌, not, eqb, length};
ghost use Rattle.tag_file.specs.Repeats.{record_read};
ghost use Rattle.tag_file.specs.answers.Words.{read_words, load_words};
ghost use Rattle.join_spec.specs.Answer.{room_of, join_words, JoinCall};
ghost use Rattle.inputs.specs.Input.{input_of};
ghost use Rattle.join.specs.Numbered.{weights_of, numbered_answer};
ghost use Rattle.first_search_spec.specs.First.{first_answer, first_words};
ghost use Rattle.item_order_spec.specs.Order.{order_answer, order_ranks, order_words};
ghost use Rattle.tag_file.specs.Loading.{lent_lists, lists_of, returned_lists, load_answer, LoadCall};
ghost use Rattle.pool_loader_spec.specs.Pooling.{pooled_answer, PooledCall};
ghost use Rattle.tag_writer_spec.specs.Writer.{write_answer, written_file, write_words};

use inputs::Input;
use join_spec::Weights;
use sets::Sets;
use tag_file::{Lists, NumberedSets};

// Joins two collections.
#[unsafe(no_mangle)]
pub extern "C" fn kitfinder_join(
    t: u32,
    left_ends: &[u32],
    left_items: &[u16],
    right_ends: &[u32],
    right_items: &[u16],
    limit: u32,
    ranks: &[u16],
    budget: u32,
    number: u32,
    a: f64,
    b: f64,
    g: f64,
    h: f64,
    work: &mut [u32],
    pairs: &mut [u16],
    answer: &mut [u64; 9],
)
    ensures answer { answer.new ≡ join_words (numbered_answer
        (input_of t left_ends.now left_items.now right_ends.now right_items.now)
        limit ranks.now budget number (weights_of a b g h) (room_of work.old pairs.old)) }
    ensures lists { JoinCall (numbered_answer
        (input_of t left_ends.now left_items.now right_ends.now right_items.now)
        limit ranks.now budget number (weights_of a b g h) (room_of work.old pairs.old))
        (input_of t left_ends.now left_items.now right_ends.now right_items.now)
        work.old pairs.old work.new pairs.new
        (numbered_answer
        (input_of t left_ends.now left_items.now right_ends.now right_items.now)
        limit ranks.now budget number (weights_of a b g h) (room_of work.old pairs.old)) }
{
    let left = Sets {
        ends: left_ends,
        items: left_items,
    };
    let right = Sets {
        ends: right_ends,
        items: right_items,
    };
    let weights = Weights { a, b, g, h };
    *answer = join_spec::answers::join_words(join::run_numbered(
        &Input { t, left, right },
        limit,
        ranks,
        budget,
        number,
        weights,
        work,
        pairs,
    ));
}

// Finds the first left set that one right set contains.
#[unsafe(no_mangle)]
pub extern "C" fn kitfinder_first(
    t: u32,
    left_ends: &[u32],
    left_items: &[u16],
    right: &[u16],
    answer: &mut [u64; 6],
)
    ensures answer { answer.new ≡ first_words (first_answer t
        (record { ends = left_ends.now; items = left_items.now }) right.now) }
{
    let left = Sets {
        ends: left_ends,
        items: left_items,
    };
    *answer = first_search_spec::first_words(first_search::find_first(t, &left, right));
}

// Reads the record at a place of a tag file.
#[unsafe(no_mangle)]
pub extern "C" fn kitfinder_read_record(file: &[u8], at: usize, answer: &mut [u64; 10])
    ensures answer { answer.new ≡ read_words (record_read file.now at) }
{
    *answer = tag_file::answers::read_words(record_reader::read(file, at));
}

// Ranks the items by frequency.
#[unsafe(no_mangle)]
pub extern "C" fn kitfinder_order(
    t: u32,
    left_ends: &[u32],
    left_items: &[u16],
    right_ends: &[u32],
    right_items: &[u16],
    falling: u32,
    ranks: &mut [u16],
    answer: &mut [u64; 3],
)
    ensures answer { answer.new ≡ order_words (order_answer
        (input_of t left_ends.now left_items.now right_ends.now right_items.now)
        (length ranks.old)) }
    ensures ranks { ranks.new ≡ order_ranks
        (input_of t left_ends.now left_items.now right_ends.now right_items.now)
        (not (eqb falling 0)) ranks.old }
{
    let left = Sets {
        ends: left_ends,
        items: left_items,
    };
    let right = Sets {
        ends: right_ends,
        items: right_items,
    };
    *answer = item_order_spec::order_words(item_order::order(
        &Input { t, left, right },
        falling != 0,
        ranks,
    ));
}

// Loads a tag file.
#[unsafe(no_mangle)]
pub extern "C" fn kitfinder_load(
    file: &[u8],
    tags: &mut [u8],
    left_numbers: &mut [u16],
    left_ends: &mut [u32],
    left_items: &mut [u16],
    right_numbers: &mut [u16],
    right_ends: &mut [u32],
    right_items: &mut [u16],
    answer: &mut [u64; 10],
)
    ensures answer { answer.new ≡ load_words (load_answer file.now
        (lent_lists tags left_numbers left_ends left_items right_numbers right_ends right_items)) }
    ensures lists { LoadCall file.now
        (lent_lists tags left_numbers left_ends left_items right_numbers right_ends right_items)
        (returned_lists tags left_numbers left_ends left_items right_numbers right_ends right_items)
        (load_answer file.now
        (lent_lists tags left_numbers left_ends left_items right_numbers right_ends right_items)) }
{
    *answer = tag_file::answers::load_words(tag_loader::load(
        file,
        tags,
        left_numbers,
        left_ends,
        left_items,
        right_numbers,
        right_ends,
        right_items,
    ));
}

// Loads two tag files, the right sets of both united by number.
#[unsafe(no_mangle)]
pub extern "C" fn kitfinder_load_pooled(
    first: &[u8],
    second: &[u8],
    tags: &mut [u8],
    left_numbers: &mut [u16],
    left_ends: &mut [u32],
    left_items: &mut [u16],
    right_numbers: &mut [u16],
    right_ends: &mut [u32],
    right_items: &mut [u16],
    answer: &mut [u64; 10],
)
    ensures answer { answer.new ≡ load_words (pooled_answer first.now second.now
        (lent_lists tags left_numbers left_ends left_items right_numbers right_ends right_items)) }
    ensures lists { PooledCall first.now second.now
        (lent_lists tags left_numbers left_ends left_items right_numbers right_ends right_items)
        (returned_lists tags left_numbers left_ends left_items right_numbers right_ends right_items)
        (pooled_answer first.now second.now
        (lent_lists tags left_numbers left_ends left_items right_numbers right_ends right_items)) }
{
    *answer = tag_file::answers::load_words(pool_loader::load_pooled(
        first,
        second,
        tags,
        left_numbers,
        left_ends,
        left_items,
        right_numbers,
        right_ends,
        right_items,
    ));
}

// Writes a tag file.
#[unsafe(no_mangle)]
pub extern "C" fn kitfinder_write(
    t: u32,
    tags: &[u8],
    left_numbers: &[u16],
    left_ends: &[u32],
    left_items: &[u16],
    right_numbers: &[u16],
    right_ends: &[u32],
    right_items: &[u16],
    file: &mut [u8],
    answer: &mut [u64; 4],
)
    ensures answer { answer.new ≡ write_words (write_answer t
        (lists_of tags.now left_numbers.now left_ends.now left_items.now right_numbers.now right_ends.now right_items.now) (length file.old)) }
    ensures file { file.new ≡ written_file t
        (lists_of tags.now left_numbers.now left_ends.now left_items.now right_numbers.now right_ends.now right_items.now) file.old }
{
    let left = NumberedSets {
        numbers: left_numbers,
        sets: Sets {
            ends: left_ends,
            items: left_items,
        },
    };
    let right = NumberedSets {
        numbers: right_numbers,
        sets: Sets {
            ends: right_ends,
            items: right_items,
        },
    };
    *answer = tag_writer_spec::write_words(tag_writer::write(
        t,
        &Lists { tags, left, right },
        file,
    ));
}
