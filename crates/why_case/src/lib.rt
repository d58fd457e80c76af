// Why each status of a case that was read changed, or did not: its reasons, ascending.
#![tactic(auto)]

ghost use Rattle.std.specs.Prelude.{◌≡◌, map, ◌+◌, ◌≤◌, ◌<◌, length};
ghost use Rattle.meaning.specs.Limits.{status_limit};
ghost use Rattle.limits.specs.Sizes.{node_room, test_room};
ghost use Rattle.why_case.specs.Reasons.{first_status, LowNodes, spans_of, kind_code, row_told, Low, node_of, status_of, first_held, stops, between, reason, reasons_for, all_from, Put, closed_told, Ready, list_of, reply_for, space_for};

use graph_tests::Test;
use marks::Marks;
use reply::Reply;
use step_plan::Plan;
use step_sheet::Accepted;
use step_test::{Moment, Stop};

// Between which places of the plan the rows of each node stand.
#[derive(Clone, Copy)]
struct Spans {
    from: [u8; limits::NODES],
    to: [u8; limits::NODES],
}

// What is told from, beside the rows: the marks before and after the step, between which places each node's rows stand, the codes of parents and homes, and
// the line of the first status.
#[derive(Clone, Copy)]
struct Facts {
    before: Marks,
    after: Marks,
    from: [u8; limits::NODES],
    to: [u8; limits::NODES],
    under: [u8; limits::STATUSES],
    line: usize,
}

// A status: whether it changed, between which places the rows stand for the change that it could have made, and what is told where it changed and none of them
// held, 0 for nothing.
#[derive(Clone, Copy)]
struct Status {
    changed: bool,
    from: usize,
    to: usize,
    closed: u32,
}

fn line_number(x: u16) -> u32
    ensures { (result ≡ x) × (result < 65536) }
{
    x as u32
}

// The node of each place has its rows between the end before and its own.
fn row_spans(plan: Plan) -> Spans
    requires { LowNodes plan }
    ensures { result ≡ spans_of plan }
{
    let nodes = plan.nodes.min(limits::NODES);
    let mut from = [0; limits::NODES];
    let mut to = [0; limits::NODES];
    let mut end = 0;
    for i in 0..nodes {
        let k = usize::from(plan.order[i]);
        from[k] = end;
        end = plan.ends[i];
        to[k] = end;
    }
    Spans { from, to }
}

// A row that nothing stopped held, which is kind 1.
fn kind_of(stop: Option<Stop>) -> u32
    ensures { (result ≡ kind_code stop) × (result < 256) }
{
    match stop {
        None => 1,
        Some(s) => s as u32,
    }
}

// What is told of a row, its line x 10 + the kind; 0 of an implied one, which stands on no line.
fn tell_row(t: Test, words: &[u64], moment: &Moment, after: &Marks) -> u32
    ensures { (result ≡ row_told words.now moment.now after.now t) × (result < 1000000) }
{
    if t.line == 0 {
        return 0;
    }
    let stop = step_test::stopped(t, words, moment, after);
    line_number(t.line) * 10 + kind_of(stop)
}

// What is told of each row of the plan.
fn tell_rows(plan: Plan, words: &[u64], moment: Moment, after: &Marks) -> [u32; limits::TESTS]
    ensures { (result ≡ map (row_told words.now moment after.now) plan.rows) × Low result }
{
    let mut rows = [0u32; limits::TESTS];
    for j in 0..limits::TESTS {
        rows[j] = tell_row(plan.rows[j], words, &moment, after);
    }
    rows
}

// What is told of a status that was closed with its parent, where the first status stands on `line`: the parent's line x 10 + 2; 0 where it has no parent.
fn closed_with(line: usize, under: u8) -> u32
    requires { line ≤ first_status }
    ensures { (result ≡ closed_told line under) × (result < 1000000) }
{
    if under == 0 {
        return 0;
    }
    ((line + places::of_byte(under) - 1) * 10 + 2) as u32
}

// The node of the change that a status could have made: from yes to no, or from no to yes.
fn node_of(before: &Marks, x: usize) -> usize
    requires { x < status_limit }
    ensures { (result ≡ node_of before.now x) × (result < node_room) }
{
    if before[x] == marks::YES {
        return x * 2 + 1;
    }
    x * 2
}

// What is known of status x.
fn status_at(facts: Facts, x: usize) -> Status
    requires { (facts.line ≤ first_status) × (x < status_limit) }
    ensures { (result ≡ status_of facts x) × (result.closed < 1000000) }
{
    let before = facts.before;
    let k = node_of(&before, x);
    Status {
        changed: before[x] != facts.after[x],
        from: places::of_byte(facts.from[k]),
        to: places::of_byte(facts.to[k]),
        closed: closed_with(facts.line, facts.under[x]),
    }
}

// What is told of the first row that held, from `from` up to `to`; `other` where none did.
fn first_held(rows: &[u32], from: usize, to: usize, other: u32) -> u32
    requires { Low rows.now × (other < 1000000) }
    ensures { (result ≡ first_held (between from to rows.now) other) × (result < 1000000) }
{
    let end = to.min(rows.len());
    for j in from..end {
        if rows[j] % 10 == 1 {
            return rows[j];
        }
    }
    other
}

// Puts the reasons of status x behind the first n, one for each row from `from` up to `to` that was stopped; answers how many there are then.
fn put_stops(
    rows: &[u32],
    from: usize,
    to: usize,
    x: usize,
    reasons: &mut [u32; limits::TESTS],
    n: usize,
) -> usize
    requires { Low rows.now × (x < status_limit) × (n + length (stops (between from to rows.now)) ≤ test_room) }
    ensures { Put (map (reason x) (stops (between from to rows.now))) n result reasons.old reasons.new }
{
    let base = (x * 10000) as u32;
    let end = places::lower(to, rows.len());
    let mut n = n;
    let mut j = from;
    while j < end {
        let c = rows[j];
        j += 1;
        if 1 < c % 10 {
            reasons[n] = base + c;
            n += 1;
        }
    }
    n
}

// Puts the reasons of status x behind the first n; answers how many there are then.
fn put_status(
    status: Status,
    rows: &[u32],
    x: usize,
    reasons: &mut [u32; limits::TESTS],
    n: usize,
) -> usize
    requires { Low rows.now × (status.closed < 1000000) × (x < status_limit) × (n + length (reasons_for status rows.now x) ≤ test_room) }
    ensures { Put (reasons_for status rows.now x) n result reasons.old reasons.new }
{
    if !status.changed {
        return put_stops(rows, status.from, status.to, x, reasons, n);
    }
    let c = first_held(rows, status.from, status.to, status.closed);
    if c == 0 {
        return n;
    }
    reasons[n] = (x * 10000) as u32 + c;
    n + 1
}

// Puts the reasons of the first `statuses` statuses; answers how many there are.
fn put_all(facts: Facts, rows: &[u32], statuses: usize, reasons: &mut [u32; limits::TESTS]) -> usize
    requires { Low rows.now × (facts.line ≤ first_status) × (statuses ≤ status_limit) × (length (all_from facts rows.now 0 statuses) ≤ test_room) }
    ensures { Put (all_from facts rows.now 0 statuses) 0 result reasons.old reasons.new }
{
    let mut n = 0;
    for x in 0..statuses {
        let status = status_at(facts, x);
        n = put_status(status, rows, x, reasons, n);
    }
    n
}

// The reasons of a sheet at a moment, put into an array of their own; answers how many there are.
fn list_all(sheet: Accepted, moment: Moment, reasons: &mut [u32; limits::TESTS]) -> usize
    requires { Ready sheet moment }
    ensures { Put (list_of sheet moment) 0 result reasons.old reasons.new }
{
    let after = step_run::run_step(sheet.plan, &sheet.words, moment);
    let rows = tell_rows(sheet.plan, &sheet.words, moment, &after);
    let spans = row_spans(sheet.plan);
    let before = moment.before;
    let from = spans.from;
    let to = spans.to;
    let under = sheet.heads.under;
    let facts = Facts {
        before,
        after,
        from,
        to,
        under,
        line: 2 + sheet.heads.fields + sheet.heads.events,
    };
    put_all(facts, &rows, sheet.plan.nodes / 2, reasons)
}

// Why, for a sheet at a moment: the reasons at the start of `out`, and how many there are; or ROOM where they do not fit.
pub fn why_case(sheet: Accepted, moment: Moment, out: &mut [u32]) -> Reply
    requires { Ready sheet moment }
    ensures answer { result ≡ reply_for sheet moment (length out.old) }
    ensures space { out.new ≡ space_for sheet moment out.old }
{
    let mut reasons = [0u32; limits::TESTS];
    let count = list_all(sheet, moment, &mut reasons);
    if out.len() < count {
        return reply::refusal(reply::ROOM, 0, 0);
    }
    sets::copy_front(&reasons, count, out);
    Reply {
        number: 0,
        paper: 0,
        line: 0,
        count,
        tasks: 0,
    }
}
