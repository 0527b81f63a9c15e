// The answer of a pooled load, by what its first passes found and by the lengths of the lists that are lent.
ghost use Rattle.std.specs.Prelude.{◌≡◌};
ghost use Rattle.pool_loader.specs.answer.Deciding.{decided, LimitedIf};

use sets::Refusal;
use tag_file::{Loaded, Repeats};
use tag_loader::lent_lists::{LoadRoom, has_room};

// The answer, by that of the first passes, the first pooled set that is too long, and the lengths of the lists.
pub fn decide(
    answer: Result<(Loaded, Repeats), Refusal>,
    long: Result<(), Refusal>,
    room: LoadRoom,
) -> Result<(Loaded, Repeats), Refusal>
    requires { LimitedIf answer }
    ensures { result ≡ decided answer long room }
{
    let (total, repeats) = answer?;
    if !has_room(total, room) {
        return Err(Refusal::ShortOutput);
    }
    long?;
    Ok((total, repeats))
}
