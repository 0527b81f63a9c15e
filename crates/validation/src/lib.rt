// Whether the input is valid. `falls` counts where a list falls, `one_set` tests one set, `collections` finds the first bad set of a
// collection, and `permutations` tests a rank table.
#![tactic(auto)]

pub mod collections;
pub mod falls;
pub mod one_set;
pub mod permutations;
