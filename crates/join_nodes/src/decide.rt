// The decision at a node.
ghost use Rattle.std.specs.Prelude.{◌≡◌, List, ℕ, ◌*◌, ◌≤◌, get_or};
ghost use Rattle.sets.specs.Limits.{max_sets};
ghost use Rattle.join_spec.specs.declared.Rule.TheVariants.{Weighed};
ghost use Rattle.join_spec.specs.Query.{Query};
ghost use Rattle.join_spec.specs.Node.{goes_on};
ghost use Rattle.join_spec.specs.Walk.{goes};
ghost use Rattle.join_nodes.specs.Narrowing.{SomePath};
ghost use Rattle.join_nodes.specs.Visiting.{OnPath, NodeAt};

use join_check::Scope;
use join_check::keys::{count_seen, key_at};
use join_index::Layout;
use join_spec::{Rule, Weights};
use words::word_at;

// The rank at place i of the path, read off the left set at left_order[lo], which begins with it.
pub fn rank_on(work: &[u32], lay: Layout, lo: usize, i: usize) -> usize
    requires { SomePath (λ q path. OnPath lay q path work.now lo i) }
    ensures { (q : Query) (path : List ℕ) → OnPath lay q path work.now lo i → result ≡ get_or path i 0 }
{
    let order = lay.left_order;
    let k = word_at(work, order + lo);
    key_at(work, lay, k, i) - 1
}

// Whether the weighed rule goes on, with c candidates, t holders of the last rank and m left sets. Each operation rounds once, in
// this order.
pub fn weigh(weights: Weights, c: u32, t: u32, m: u32) -> bool
    requires { (c ≤ max_sets) × (m ≤ max_sets) }
    ensures { result ≡ goes_on (Weighed weights) c t m }
{
    let product = c * m;
    let merging = weights.a * (c as f64) + weights.b * (t as f64) + weights.g;
    let checking = weights.h * (product as f64);
    merging < checking
}

// The weighed rule at a node; the holders of its last rank are counted in that rank's inverted list.
fn weigh_node(work: &[u32], lay: Layout, weights: Weights, node: &Scope) -> bool
    requires { let n = node.now in SomePath (λ q path. NodeAt lay q path work.now n.depth n.lo n.hi n.from n.to) }
    ensures { let n = node.now in (q : Query) (path : List ℕ) → NodeAt lay q path work.now n.depth n.lo n.hi n.from n.to
        → q.rule ≡ Weighed weights → result ≡ goes q path }
{
    let offsets = lay.offsets;
    let index = lay.index;
    let root = rank_on(work, lay, node.lo, 0);
    let rank = rank_on(work, lay, node.lo, node.depth - 1);
    let first = word_at(work, offsets + rank);
    let last = word_at(work, offsets + rank + 1);
    let t = count_seen(work, lay, index + first, index + last, root);
    weigh(
        weights,
        (node.to - node.from) as u32,
        t as u32,
        (node.hi - node.lo) as u32,
    )
}

// Whether the walk goes on at a node.
pub fn decide(work: &[u32], lay: Layout, rule: Rule, node: &Scope) -> bool
    requires { let n = node.now in SomePath (λ q path. NodeAt lay q path work.now n.depth n.lo n.hi n.from n.to) }
    ensures { let n = node.now in (q : Query) (path : List ℕ) → NodeAt lay q path work.now n.depth n.lo n.hi n.from n.to → q.rule ≡ rule
        → result ≡ goes q path }
{
    match rule {
        Rule::Merge => true,
        Rule::Check => false,
        Rule::Weighed(weights) => weigh_node(work, lay, weights, node),
    }
}
