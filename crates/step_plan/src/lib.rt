// The tests listed by a testing order, so that a step is one pass over them.
#![tactic(auto)]

ghost use Rattle.std.specs.Prelude.{◌≡◌, ◌&&◌, eqb, ltb, take};
ghost use Rattle.limits.specs.Sizes.{test_room};
ghost use Rattle.step_plan.specs.Plan.{as_plan};

use graph_tests::{Test, Tests};

// The tests in the order of the nodes, behind which of them each node's tests end, and the order itself: its first `nodes` nodes.
#[derive(Clone, Copy)]
pub struct Plan {
    pub rows: [Test; limits::TESTS],
    pub ends: [u8; limits::NODES],
    pub order: [u8; limits::NODES],
    pub nodes: usize,
}

// The test is one of the node's, and there is room for it.
fn goes(node: u8, k: u8, count: usize) -> bool
    ensures { result ≡ (eqb node k && ltb count test_room) }
{
    node == k && count < limits::TESTS
}

// The tests listed by the first `nodes` nodes of `order`, with the order.
#[tactic(auto, using(crate::proofs::Laws::planning))]
pub fn plan_tests(tests: Tests, order: [u8; limits::NODES], nodes: usize) -> Plan
    ensures { result ≡ as_plan (take tests.count tests.rows) order nodes }
{
    let listed = tests.listed();
    let mut rows = [graph_tests::no_test(); limits::TESTS];
    let mut ends = [0; limits::NODES];
    let mut end = 0;
    for i in 0..nodes.min(limits::NODES) {
        for t in listed {
            if goes(t.node, order[i], end) {
                rows[end] = *t;
                end += 1;
            }
        }
        ends[i] = end as u8;
    }
    Plan {
        rows,
        ends,
        order,
        nodes,
    }
}
