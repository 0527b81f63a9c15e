// The seven lists that a load fills: whether lists of these lengths hold what was counted, and all of them filled with zeros.
ghost use Rattle.std.specs.Prelude.{◌≡◌};
ghost use Rattle.tag_file.specs.Loading.{lent_lists, returned_lists};
ghost use Rattle.tag_scan.specs.totals.Totals.{Limited};
ghost use Rattle.tag_loader.specs.lent_lists.LentLists.{side_fits, SideCleared, AllCleared, has_room};

use tag_file::{Loaded, TAG_LENGTH};

// The lengths of the lists of a side.
#[derive(Clone, Copy)]
pub struct SideRoom {
    pub numbers: usize,
    pub ends: usize,
    pub items: usize,
}

// Whether lists of these lengths hold the numbers, ends and items of a side.
fn side_fits(sets: usize, entries: usize, room: SideRoom) -> bool
    ensures { result ≡ side_fits sets entries room }
{
    sets <= room.numbers && (sets <= room.ends && entries <= room.items)
}

// Fills the lists of a side with zeros.
fn clear_side(numbers: &mut [u16], ends: &mut [u32], items: &mut [u16])
    ensures { SideCleared numbers.old ends.old items.old
        numbers.new ends.new items.new }
{
    numbers.fill(0);
    ends.fill(0);
    items.fill(0);
}

// Fills the seven lists with zeros.
pub fn clear_lists(
    tags: &mut [u8],
    left_numbers: &mut [u16],
    left_ends: &mut [u32],
    left_items: &mut [u16],
    right_numbers: &mut [u16],
    right_ends: &mut [u32],
    right_items: &mut [u16],
)
    ensures { AllCleared
        (lent_lists tags left_numbers left_ends left_items right_numbers right_ends right_items)
        (returned_lists tags left_numbers left_ends left_items right_numbers right_ends right_items) }
{
    tags.fill(0);
    clear_side(left_numbers, left_ends, left_items);
    clear_side(right_numbers, right_ends, right_items);
}

// The lengths of the seven lists.
#[derive(Clone, Copy)]
pub struct LoadRoom {
    pub tags: usize,
    pub left: SideRoom,
    pub right: SideRoom,
}

// Whether lists of these lengths hold what was counted.
pub fn has_room(total: Loaded, room: LoadRoom) -> bool
    requires { Limited total }
    ensures { result ≡ has_room total room }
{
    if room.tags < TAG_LENGTH * total.tag_count {
        return false;
    }
    let left = side_fits(total.left_sets, total.left_entries, room.left);
    if !left {
        return false;
    }
    side_fits(total.right_sets, total.right_entries, room.right)
}
