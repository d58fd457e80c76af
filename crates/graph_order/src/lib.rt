// The testing order of a graph, or none where it has a cycle. A set of nodes is a mask: bit p is node p.
#![tactic(auto)]

ghost use Rattle.std.specs.Prelude.{◌≡◌, not, ◌&&◌, ◌||◌, ℕ, ◌-◌, ◌≤◌, ◌<◌, ◌^◌, eqb, ltb};
ghost use Rattle.meaning.specs.Graph.{order_for, first_free};
ghost use Rattle.limits.specs.Sizes.{node_room};
ghost use Rattle.graph_order.specs.Masks.{width, has, members, mask_into, meet, with_bit};
ghost use Rattle.graph_order.specs.Answers.{as_sorting, as_free};

// How many nodes a mask has room for: the bits of its number.
const WIDTH: usize = 64;

// The mask with the node k too, where there is room for it.
#[tactic(auto, using(crate::proofs::Laws::adding))]
pub fn with_bit(m: u64, k: usize) -> u64
    ensures nodes { (j : ℕ) → has result j ≡ has m j || (eqb j k && ltb k width) }
    ensures number { result ≡ with_bit m k }
{
    if k < WIDTH { m | (1 << k) } else { m }
}

// The mask of the nodes below n.
pub fn full(n: usize) -> u64
    requires { n ≤ width }
    ensures { result ≡ 2 ^ n - 1 }
{
    if n < WIDTH { (1 << n) - 1 } else { u64::MAX }
}

// Whether the mask has the node k.
#[tactic(auto, unfolding(crate::specs::Masks::has))]
pub fn has(m: u64, k: usize) -> bool
    requires { k < width }
    ensures { result ≡ has m k }
{
    (m >> k) % 2 == 1
}

// Whether the node k is left and no edge leads to it from a node that is left: `mask` has those from which edges lead to it.
#[tactic(auto, using(crate::proofs::Laws::free_left))]
fn is_free(mask: u64, left: u64, k: usize) -> bool
    requires { k < width }
    ensures { result ≡ has left k && not (meet mask left) }
{
    has(left, k) && mask & left == 0
}

// The lowest node that is left and to which no edge leads from a node that is left.
pub fn first_free(masks: &[u64; limits::NODES], left: u64, n: usize) -> Option<usize>
    requires { (n ≤ node_room) × (left < 2 ^ n) }
    ensures { result ≡ as_free (first_free (mask_into masks.now) (members left) (members left)) }
{
    (0..n).find(|k| is_free(masks[*k], left, *k))
}

// The testing order of the nodes below `n`, or none where there is a cycle: each node behind those from which an edge leads to it. Bit p of mask k is the
// edge from p to k. What stands behind the order is 0.
#[tactic(auto, using(crate::proofs::Laws::going))]
pub fn sort(masks: &[u64; limits::NODES], n: usize) -> Option<[u8; limits::NODES]>
    requires { n ≤ node_room }
    ensures { result ≡ as_sorting (order_for n (mask_into masks.now)) }
{
    let mut left = full(n);
    let mut order = [0u8; limits::NODES];
    for len in 0..n {
        let k = first_free(masks, left, n)?;
        left ^= 1 << k;
        order[len] = k as u8;
    }
    Some(order)
}
