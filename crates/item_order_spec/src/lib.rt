// What the order of items means (document 01, "Order of tags"): its answer, defined in specs/, and in proofs/ the laws about it that
// need no code. The code that meets it is in `item_order`.
#![tactic(auto)]

ghost use Rattle.std.specs.Prelude.{◌≡◌};
ghost use Rattle.item_order_spec.specs.Order.{order_words};

use sets::{Refusal, head_of};

// The words of the answer at the C boundary.
pub fn order_words(answer: Result<(), Refusal>) -> [u64; 3]
    ensures { result ≡ order_words answer }
{
    match answer {
        Ok(()) => [0, 0, 0],
        Err(why) => {
            let head = head_of(why);
            [head.number, head.first, head.second]
        }
    }
}
