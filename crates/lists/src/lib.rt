// Lists and numbers: the definitions and laws that the crates above share. Nothing here knows of sets or kits.

#![tactic(auto)]

ghost use Rattle.std.specs.Prelude.{◌≡◌, length};

// An array with one value at each place. A contract that names it says how long it is, and not each of its places.
pub fn filled<T: Copy, const N: usize>(value: T) -> [T; N]
    ensures { length result ≡ N }
{
    [value; N]
}
