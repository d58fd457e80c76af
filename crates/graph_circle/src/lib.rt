// A circle of a graph that has no testing order. A set of nodes is a mask, as in `graph_order`: bit p of mask k is the edge from p to k.
#![tactic(auto)]

ghost use Rattle.std.specs.Prelude.{◌≡◌, [], ◌∷◌, ◌≤◌, ◌<◌, ◌^◌, Some, None, cond, eqb, length, position, slice_get};
ghost use Rattle.meaning.specs.Text.{from, is_in};
ghost use Rattle.meaning.specs.Circle.{stuck, up_to, go_back, circle_for};
ghost use Rattle.limits.specs.Sizes.{node_room};
ghost use Rattle.graph_order.specs.Masks.{members, mask_into};
ghost use Rattle.graph_circle.specs.Answers.{as_circle};

// The nodes of a circle in the direction of the edges, and how many they are; none where the graph has a testing order.
// Stays: a rule of the project (no heap, fixed memory) wants an array with the count of its nodes beside it.
#[derive(Clone, Copy)]
pub struct Circle {
    pub len: usize,
    pub nodes: [u8; limits::NODES],
}

// No circle.
fn no_circle() -> Circle
    ensures { result ≡ as_circle [] }
{
    Circle {
        len: 0,
        nodes: [0; limits::NODES],
    }
}

// The nodes left when no further one is free.
#[tactic(auto, using(crate::proofs::Laws::taking))]
fn left_when_stuck(masks: &[u64; limits::NODES], n: usize) -> u64
    requires { n ≤ node_room }
    ensures { (result < 2 ^ n) × (members result ≡ stuck (mask_into masks.now) n (from 0 n)) }
{
    let mut left = graph_order::full(n);
    for _i in 0..n {
        let Some(k) = graph_order::first_free(masks, left, n) else {
            return left;
        };
        left ^= 1 << k;
    }
    left
}

// The lowest node of a mask.
#[tactic(auto, using(crate::proofs::Laws::looking))]
fn lowest(mask: u64) -> Option<usize>
    ensures { result ≡ slice_get (members mask) 0 }
{
    if mask == 0 {
        None
    } else {
        Some(mask.trailing_zeros() as usize)
    }
}

// Where the node p stands on the trail, if it does.
fn place_of(trail: &[u8], p: u8) -> Option<usize>
    ensures { result ≡ position (λ q. eqb q p) trail.now }
{
    trail.iter().position(|q| *q == p)
}

// The circle of the node p and the nodes of a part of the trail.
fn told(p: u8, part: &[u8]) -> Circle
    requires { length part.now < node_room }
    ensures { result ≡ as_circle (p ∷ part.now) }
{
    let len = part.len() + 1;
    let mut nodes = [0; limits::NODES];
    nodes[0] = p;
    nodes[1..len].copy_from_slice(part);
    Circle { len, nodes }
}

// The circle of the node p and those of the trail before it, where p stands on the trail.
#[tactic(auto, using(crate::proofs::Laws::coming))]
fn came_to(trail: &[u8], p: u8) -> Option<Circle>
    requires { length trail.now ≤ node_room }
    ensures { result ≡ cond (is_in p trail.now) (Some (as_circle (p ∷ up_to p trail.now))) None }
{
    let to = place_of(trail, p)?;
    Some(told(p, &trail[..to]))
}

// From the first node again and again to the lowest of those left from which an edge leads here, until one comes again. The trail is written from the end of
// its array to the front, so that the last node stands first and the trail runs in the direction of the edges.
#[tactic(auto, using(crate::proofs::Back::backing))]
fn go_back(masks: &[u64; limits::NODES], left: u64, n: usize, first: usize) -> Circle
    requires { (n ≤ node_room) × (left < 2 ^ n) × (first < n) }
    ensures { result ≡ as_circle (go_back (mask_into masks.now) (members left) n first []) }
{
    let mut trail = [0u8; limits::NODES];
    let mut k = first;
    for at in (limits::NODES - n..limits::NODES).rev() {
        trail[at] = k as u8;
        let Some(p) = lowest(left & masks[k]) else {
            return no_circle();
        };
        if let Some(circle) = came_to(&trail[at..], p as u8) {
            return circle;
        }
        k = p;
    }
    no_circle()
}

// The circle that is told of the graph of `n` nodes, none where it has a testing order.
#[tactic(auto, using(crate::proofs::Back::finding))]
pub fn find(masks: &[u64; limits::NODES], n: usize) -> Circle
    requires { n ≤ node_room }
    ensures { result ≡ as_circle (circle_for n (mask_into masks.now)) }
{
    let left = left_when_stuck(masks, n);
    let Some(k) = lowest(left) else {
        return no_circle();
    };
    go_back(masks, left, n, k)
}
