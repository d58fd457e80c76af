// One step: the statuses after it, node after node of the testing order.
#![tactic(auto)]

ghost use Rattle.std.specs.Prelude.{◌≡◌, ◌-◌, true, take, drop};
ghost use Rattle.std.specs.List.{list_any};
ghost use Rattle.step_test.specs.Met.{test_met};
ghost use Rattle.step_run.specs.Run.{may_change, set_mark, node_met, run_over};

use graph_tests::Test;
use marks::Marks;
use step_plan::Plan;
use step_test::Moment;

// A `+` node's status was no before, a `-` node's was yes.
#[tactic(auto, unfolding(crate::specs::Run::may_change, meaning::specs::Step::rising))]
fn may_change(before: &Marks, k: u8) -> bool
    ensures { result ≡ may_change before.now k }
{
    let was = marks::yes(before, k / 2);
    if k % 2 == 0 { !was } else { was }
}

// Some of these tests is met.
fn some_met(tests: &[Test], words: &[u64], moment: &Moment, after: &Marks) -> bool
    ensures { result ≡ list_any (test_met words.now moment.now after.now) tests.now }
{
    tests
        .iter()
        .any(|t| step_test::test_met(*t, words, moment, after))
}

// A node may change its status, and one of its tests, which are the rows from `start` up to `end`, is met.
// The part is cut out for a node that may change, and not for the others: an outlook asks 64 nodes for each of 4,096 choices.
#[tactic(auto, using(crate::proofs::Laws::any_same), unfolding(crate::specs::Run::node_met))]
fn node_met(
    k: u8,
    rows: &[Test],
    start: usize,
    end: usize,
    words: &[u64],
    moment: &Moment,
    after: &Marks,
) -> bool
    ensures { result ≡ node_met words.now moment.now after.now k (take (end - start) (drop start rows.now)) }
{
    may_change(&moment.before, k)
        && some_met(places::between(rows, start, end), words, moment, after)
}

// Sets the status of a node.
fn set_mark(k: u8, after: &mut Marks)
    ensures { after.new ≡ set_mark true k after.old }
{
    let x = usize::from(k / 2);
    if x < limits::STATUSES {
        after[x] = if k % 2 == 0 { marks::YES } else { marks::NO };
    }
}

// The marks after the step: at each node of the plan the first of its tests that is met, with the words of their conditions, sets the mark.
pub fn run_step(plan: Plan, words: &[u64], moment: Moment) -> Marks
    ensures { result ≡ run_over words.now moment plan }
{
    let mut after = moment.before;
    let mut start = 0;
    for i in 0..plan.nodes.min(limits::NODES) {
        let k = plan.order[i];
        let end = usize::from(plan.ends[i]);
        if node_met(k, &plan.rows, start, end, words, &moment, &after) {
            set_mark(k, &mut after);
        }
        start = end;
    }
    after
}
