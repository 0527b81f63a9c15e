// What the join means: its settings and its answer, defined in specs/, with laws in proofs/ that need no code. `answers` gives the
// answer as words at the C boundary. The code that meets all this is in the crates above.
#![tactic(auto)]

pub mod answers;

// The four weights of the weighed merge rule.
#[derive(Clone, Copy)]
pub struct Weights {
    pub a: f64,
    pub b: f64,
    pub g: f64,
    pub h: f64,
}

// The merge rule: what decides at a node whether the walk goes on.
#[derive(Clone, Copy)]
pub enum Rule {
    Merge,
    Check,
    Weighed(Weights),
}

// The settings of a join: the depth limit, the rank of each item, how many checks it may make, and the merge rule.
#[derive(Clone, Copy)]
pub struct Settings<'a> {
    pub limit: u32,
    pub ranks: &'a [u16],
    pub budget: u32,
    pub rule: Rule,
}

// The six counts of a join.
#[derive(Clone, Copy)]
pub struct Counts {
    pub pairs: u32,
    pub by_path: u32,
    pub confirmed: u32,
    pub checks: u32,
    pub dropped: u32,
    pub false_drops: u32,
}
