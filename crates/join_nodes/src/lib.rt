// A node of the walk: its left sets and its candidates, and what becomes of them. `decide` says whether the walk goes on there,
// `narrow` finds the candidates after it. `blocks` settles left sets with no child to visit, with `block_checks` for checks within the
// budget; `lone` pairs a left set that is alone; `enter` takes a node up to its children.
#![tactic(auto)]

use join_spec::Rule;

// The settings that bear on the walk.
#[derive(Clone, Copy)]
pub struct WalkSettings {
    pub limit: usize,
    pub rule: Rule,
    pub budget: u32,
}

pub mod block_checks;
pub mod blocks;
pub mod decide;
pub mod enter;
pub mod lone;
pub mod narrow;
