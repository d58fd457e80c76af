// What goes with a step: the moment of a card and an event line, the tasks started, and statuses as a pattern.
#![tactic(auto)]

ghost use Rattle.std.specs.Prelude.{◌≡◌, ◌≤◌, cond, take, set, replicate};
ghost use Rattle.meaning.specs.Step.{pattern};
ghost use Rattle.meaning.specs.Limits.{status_limit};
ghost use Rattle.marks.specs.Codes.{is_yes, side_of};
ghost use Rattle.step_moment.specs.Tables.{put_codes, moment_of, mark_parent, mark_parents, task_mark, task_marks};

use case_tables::{Card, Happening};
use marks::{Marks, Values};
use step_test::Moment;

// Puts in the value of a field.
fn put_value(values: &mut Values, f: u8, v: u64)
    ensures { values.new ≡ set values.old f v }
{
    let at = usize::from(f);
    if at < limits::FIELDS {
        values[at] = v;
    }
}

// The values with those that the event carries put in.
fn put_in(mut values: Values, e: Happening) -> Values
    ensures { result ≡ put_codes (take e.count e.fields) e.values values }
{
    for i in 0..e.count.min(limits::FIELDS) {
        put_value(&mut values, e.fields[i], e.values[i]);
    }
    values
}

// The moment of a card and an event line: the event, the values with the event's put in, and the marks before.
pub fn moment_of(card: Card, e: Happening) -> Moment
    ensures { result ≡ moment_of card e }
{
    let given = card.values;
    let values = put_in(given, e);
    let before = card.marks;
    Moment {
        event: e.event,
        values,
        before,
    }
}

// 1 for a status that is yes.
fn bit(mark: u8) -> u32
    ensures { result ≡ cond (is_yes mark) 1 0 }
{
    u32::from(mark == marks::YES)
}

// The pattern of the first n statuses: bit i is status i. The last is added first.
pub fn pattern_of(marks: Marks, n: usize) -> u32
    requires { n ≤ status_limit }
    ensures { result ≡ pattern (side_of (take n marks)) }
{
    let mut p = 0;
    for i in (0..n).rev() {
        p = p * 2 + bit(marks[i]);
    }
    p
}

// The stage that a code names is a parent.
fn mark_parent(parents: &mut Marks, code: u8)
    ensures { parents.new ≡ mark_parent parents.old code }
{
    let at = usize::from(code);
    if 0 < at && at <= limits::STATUSES {
        parents[at - 1] = 1;
    }
}

// Which stages have a child stage.
fn mark_parents(under: Marks, stages: usize) -> Marks
    requires { stages ≤ status_limit }
    ensures { result ≡ mark_parents (replicate status_limit 0) (take stages under) }
{
    let mut parents = [0; limits::STATUSES];
    for x in 0..stages {
        mark_parent(&mut parents, under[x]);
    }
    parents
}

// A stage that has no child stage and turned yes is a task started.
#[tactic(auto, unfolding(crate::specs::Tables::task_mark))]
fn task_mark(parent: u8, before: u8, after: u8) -> u8
    ensures { result ≡ task_mark parent before after }
{
    if parent != 0 || before == marks::YES {
        marks::NO
    } else {
        after
    }
}

// The tasks started, as a pattern of stages: those without a child stage that turned yes.
pub fn tasks_started(under: Marks, stages: usize, before: Marks, after: Marks) -> u32
    requires { stages ≤ status_limit }
    ensures { result ≡ pattern (side_of (take stages (task_marks (mark_parents (replicate status_limit 0) (take stages under)) before after))) }
{
    let parents = mark_parents(under, stages);
    let mut tasks = [0; limits::STATUSES];
    for x in 0..stages {
        tasks[x] = task_mark(parents[x], before[x], after[x]);
    }
    pattern_of(tasks, stages)
}
