// The rules of a sheet as they are tested: one row for each, and behind them one for each child stage, which closes with its parent.
#![tactic(auto)]

ghost use Rattle.std.specs.Prelude.{[], ◌≡◌, ◌≤◌, ◌<◌, take};
ghost use Rattle.meaning.specs.Limits.{rule_limit, status_limit};
ghost use Rattle.graph_tests.specs.Table.{no_test, rule_test, closes, rule_rows, closing_rows, as_tests, behind, first_line, tests_of, Ready};

use sheet_tables::{Rule, Rules, Trigger};

// What is tested for one node.
#[derive(Clone, Copy)]
pub struct Test {
    pub node: u8,
    // A stage that must be yes after: 0 for none, otherwise the stage's place and 1 more.
    pub home: u8,
    pub trigger: Trigger,
    // Where the words of its condition begin and end; they are none where it has no condition.
    pub from: u16,
    pub to: u16,
    // Its line on the sheet, 0 for an implied one.
    pub line: u16,
}

// The tests: a sheet's rules and child stages.
// Stays: a rule of the project (no heap, fixed memory) wants an array with its count beside it; `listed` is the slice that others read.
#[derive(Clone, Copy)]
pub struct Tests {
    pub rows: [Test; limits::TESTS],
    pub count: usize,
}

// What stands behind the tests: a blank one.
pub fn no_test() -> Test
    ensures { result ≡ no_test }
{
    Test {
        node: 0,
        home: 0,
        trigger: Trigger::Always,
        from: 0,
        to: 0,
        line: 0,
    }
}

// The tests of a refused sheet: a blank table.
#[tactic(auto, using(crate::proofs::Laws::none_behind))]
pub fn no_tests() -> Tests
    ensures { result ≡ as_tests [] }
{
    Tests {
        rows: [no_test(); limits::TESTS],
        count: 0,
    }
}

impl Tests {
    // The tests themselves, without what stands behind them.
    pub fn listed(&self) -> &[Test]
        ensures { result.now ≡ take self.now.count self.now.rows }
    {
        self.rows.get(..self.count).unwrap_or(&self.rows)
    }
}

// The test of a rule: a `+` rule asks for the stage over its status.
fn rule_test(r: Rule, under: &[u8; limits::STATUSES], line: u16) -> Test
    requires { r.status < status_limit }
    ensures { result ≡ rule_test under.now line r }
{
    let (node, home) = if r.plus {
        (r.status * 2, under[usize::from(r.status)])
    } else {
        (r.status * 2 + 1, 0)
    };
    Test {
        node,
        home,
        trigger: r.trigger,
        from: r.from,
        to: r.to,
        line,
    }
}

// The implied rule: stage x closes when its parent p falls.
fn closing(x: usize, p: u8) -> Test
    requires { x < status_limit }
    ensures { result ≡ closes x p }
{
    Test {
        node: (x * 2 + 1) as u8,
        home: 0,
        trigger: Trigger::Fall(p),
        from: 0,
        to: 0,
        line: 0,
    }
}

// The tests of the rules, the first of which stands on `line`.
#[tactic(auto, using(crate::proofs::Laws::ruling))]
fn rule_tests(rules: Rules, under: &[u8; limits::STATUSES], line: usize) -> Tests
    requires { Ready rules line }
    ensures { result ≡ as_tests (rule_rows under.now line (take rules.count rules.rows)) }
{
    let count = rules.count.min(limits::RULES);
    let mut rows = [no_test(); limits::TESTS];
    for i in 0..count {
        rows[i] = rule_test(rules.rows[i], under, (line + i) as u16);
    }
    Tests { rows, count }
}

// The closings of the child stages put behind the tests.
#[tactic(auto, using(crate::proofs::Laws::shutting))]
fn with_closings(mut tests: Tests, under: [u8; limits::STATUSES], stages: usize) -> Tests
    requires { tests.count ≤ rule_limit }
    ensures { result ≡ behind tests (closing_rows 0 (take stages under)) }
{
    for x in 0..stages.min(limits::STATUSES) {
        if let Some(parent) = under[x].checked_sub(1) {
            tests.rows[tests.count] = closing(x, parent);
            tests.count += 1;
        }
    }
    tests
}

// The tests of a sheet that names so many, each with node, home and line: its rules, which stand behind a line for the model and one for each name, then the
// closings of its child stages.
#[tactic(auto, using(crate::proofs::Laws::gathering))]
pub fn tests_of(
    rules: Rules,
    under: [u8; limits::STATUSES],
    fields: usize,
    events: usize,
    stages: usize,
    miles: usize,
) -> Tests
    requires { Ready rules (first_line fields events stages miles) }
    ensures { result ≡ tests_of rules under stages (first_line fields events stages miles) }
{
    let line = 2 + fields + events + stages + miles;
    with_closings(rule_tests(rules, &under, line), under, stages)
}
