// The dependency graph of some tests: their testing order, a circle, and the line of an edge.
// The graph is a mask for each node: bit p of mask k is the edge from node p to node k.
#![tactic(auto)]

ghost use Rattle.std.specs.Prelude.{◌≡◌, cond, ◌&&◌, [], ◌∷◌, ◌-◌, ◌*◌, ◌≤◌, ◌<◌, eqb, length, replicate, take, drop};
ghost use Rattle.meaning.specs.Text.{is_in, joined};
ghost use Rattle.meaning.specs.Graph.{order_for};
ghost use Rattle.meaning.specs.Circle.{circle_for};
ghost use Rattle.meaning.specs.Tests.{up, down, both};
ghost use Rattle.meaning.specs.Limits.{status_limit};
ghost use Rattle.limits.specs.Sizes.{node_room};
ghost use Rattle.graph_order.specs.Answers.{as_sorting};
ghost use Rattle.graph_circle.specs.Answers.{as_circle};
ghost use Rattle.graph_edges.specs.Edges.{trigger_nodes, word_nodes, home_nodes, test_nodes, tests_into, line_from};
ghost use Rattle.graph_edges.specs.Added.{Added, toward};

use graph_circle::Circle;
use graph_tests::{Test, Tests};
use sheet_tables::Trigger;

// The node of a status that rises, where plus, or falls.
fn node_of(plus: bool, status: usize) -> usize
    requires { status < 256 }
    ensures { result ≡ cond plus (up status) (down status) }
{
    if plus {
        return status * 2;
    }
    status * 2 + 1
}

// The edge from p to k, where there is room for the node k.
fn link(masks: &mut [u64; limits::NODES], p: usize, k: usize)
    requires { length masks.old ≡ node_room }
    ensures { Added (toward k (p ∷ [])) masks.old masks.new }
{
    if limits::NODES <= k {
        return;
    }
    masks[k] = graph_order::with_bit(masks[k], p);
}

// The edges from both nodes of the status y.
fn link_both(masks: &mut [u64; limits::NODES], y: usize, k: usize)
    requires { (length masks.old ≡ node_room) × (y < 256) }
    ensures { Added (toward k (both y)) masks.old masks.new }
{
    link(masks, node_of(true, y), k);
    link(masks, node_of(false, y), k);
}

// The edge of a trigger to the node k.
fn add_trigger(masks: &mut [u64; limits::NODES], t: Trigger, k: usize)
    requires { length masks.old ≡ node_room }
    ensures { Added (toward k (trigger_nodes t)) masks.old masks.new }
{
    match t {
        Trigger::Always => {}
        Trigger::Event(_) => {}
        Trigger::Rise(y) => link(masks, node_of(true, places::of_byte(y)), k),
        Trigger::Fall(y) => link(masks, node_of(false, places::of_byte(y)), k),
    }
}

// The edges of a condition's word: only a status has some.
fn add_word(masks: &mut [u64; limits::NODES], w: u64, k: usize)
    requires { length masks.old ≡ node_room }
    ensures { Added (toward k (word_nodes w)) masks.old masks.new }
{
    if w % 8 < 2 {
        return;
    }
    if 4 <= w % 8 {
        return;
    }
    link_both(masks, (w / 8 % 32) as usize, k);
}

// The words that stand at from .. to.
fn words_at(words: &[u64], from: usize, to: usize) -> &[u64]
    ensures { result.now ≡ take (to - from) (drop from words.now) }
{
    let rest = words.get(from..).unwrap_or(&[]);
    rest.get(..to.saturating_sub(from)).unwrap_or(rest)
}

// The edges of a condition.
#[tactic(auto, using(crate::proofs::Laws::reading))]
fn add_words(masks: &mut [u64; limits::NODES], words: &[u64], k: usize)
    requires { length masks.old ≡ node_room }
    ensures { Added (toward k (joined word_nodes words.now)) masks.old masks.new }
{
    for w in words {
        add_word(masks, *w, k);
    }
}

// The edges of a stage that must be yes after, if there is one.
fn add_home(masks: &mut [u64; limits::NODES], home: u8, k: usize)
    requires { length masks.old ≡ node_room }
    ensures { Added (toward k (home_nodes home)) masks.old masks.new }
{
    if home == 0 {
        return;
    }
    link_both(masks, places::of_byte(home) - 1, k);
}

// The edges of a test.
fn add_test(masks: &mut [u64; limits::NODES], words: &[u64], t: Test)
    requires { length masks.old ≡ node_room }
    ensures { Added (toward t.node (test_nodes words.now t)) masks.old masks.new }
{
    let k = usize::from(t.node);
    let condition = words_at(words, usize::from(t.from), usize::from(t.to));
    add_trigger(masks, t.trigger, k);
    add_words(masks, condition, k);
    add_home(masks, t.home, k);
}

// The graph of some tests.
#[tactic(auto, using(crate::proofs::Laws::adding))]
fn masks_of(rows: &[Test], words: &[u64]) -> [u64; limits::NODES]
    ensures { Added (tests_into words.now rows.now) (replicate node_room 0) result }
{
    let mut masks = [0u64; limits::NODES];
    for t in rows {
        add_test(&mut masks, words, *t);
    }
    masks
}

// The testing order of the tests with the words of their conditions, over so many statuses; none where the graph has a cycle.
#[tactic(auto, using(crate::proofs::Laws::order_of_lem))]
pub fn testing_order(tests: Tests, words: &[u64], statuses: usize) -> Option<[u8; limits::NODES]>
    requires { statuses ≤ status_limit }
    ensures { result ≡ as_sorting (order_for (statuses * 2) (tests_into words.now (take tests.count tests.rows))) }
{
    graph_order::sort(&masks_of(tests.listed(), words), statuses * 2)
}

// The circle of the tests' graph, over so many statuses; none where it has a testing order.
#[tactic(auto, using(crate::proofs::Laws::circle_of))]
pub fn circle_of(tests: Tests, words: &[u64], statuses: usize) -> Circle
    requires { statuses ≤ status_limit }
    ensures { result ≡ as_circle (circle_for (statuses * 2) (tests_into words.now (take tests.count tests.rows))) }
{
    graph_circle::find(&masks_of(tests.listed(), words), statuses * 2)
}

// Whether a test gives the edge from p to k: alone in a graph it has that edge.
#[tactic(auto, using(crate::proofs::Laws::gives_is))]
fn gives_edge(words: &[u64], t: Test, p: usize, k: usize) -> bool
    requires { (p < node_room) × (k < node_room) }
    ensures { result ≡ eqb t.node k && is_in p (test_nodes words.now t) }
{
    let mut masks = [0u64; limits::NODES];
    add_test(&mut masks, words, t);
    graph_order::has(masks[k], p)
}

// The line of the first test of the node k that gives an edge from p; 0 where none does, or an implied one.
#[tactic(auto, using(crate::proofs::Laws::lining))]
pub fn edge_line(tests: Tests, words: &[u64], p: usize, k: usize) -> usize
    requires { (p < node_room) × (k < node_room) }
    ensures { result ≡ line_from words.now (take tests.count tests.rows) p k }
{
    let rows = tests.listed();
    for t in rows {
        if gives_edge(words, *t, p, k) {
            return places::of_pair(t.line);
        }
    }
    0
}
