// The outlook of a case that was read: the patterns of all choices, ascending, each once.
#![tactic(auto)]

ghost use Rattle.std.specs.Prelude.{◌≡◌, ◌≤◌, length};
ghost use Rattle.meaning.specs.Limits.{field_limit};
ghost use Rattle.limits.specs.Sizes.{node_room};
ghost use Rattle.sets.specs.Front.{Front};
ghost use Rattle.outlook_combos.specs.Numbered.{split, sum, product};
ghost use Rattle.outlook_case.specs.Patterns.{fixed, pattern_at, patterns_from, Ready, as_listed, list_space, reply_for, space_for};

use marks::Values;
use reply::Reply;
use step_plan::Plan;
use step_sheet::Accepted;
use step_test::Moment;

// The pattern of the step at a moment, with these values in place of its own.
fn pattern_with(plan: Plan, words: &[u64], moment: Moment, values: Values) -> u32
    requires { plan.nodes ≤ node_room }
    ensures { result ≡ pattern_at (fixed plan words.now moment) values }
{
    let before = moment.before;
    let chosen = Moment {
        event: moment.event,
        values,
        before,
    };
    let marks = step_run::run_step(plan, words, chosen);
    step_moment::pattern_of(marks, plan.nodes / 2)
}

// The patterns of the choices, from the last number to the first, ascending in the front of `patterns`; answers how many there are. Of the moment all but the
// values stays.
fn collect(
    plan: Plan,
    words: &[u64],
    moment: Moment,
    count: usize,
    lens: &[usize],
    flat: &[u32],
    patterns: &mut [u32],
) -> usize
    requires nodes_le_node_room { (plan.nodes ≤ node_room) × (count ≤ length patterns.old) }
    requires count_value { (count ≡ product lens.now) × (length lens.now ≡ field_limit) × (sum lens.now ≤ length flat.now) }
    ensures { Front (patterns_from (fixed plan words.now moment) (split lens.now flat.now) 0 count) result
        patterns.old patterns.new }
{
    let mut n = 0;
    for x in (0..count).rev() {
        let values = outlook_combos::combo(x, count, lens, flat);
        let p = pattern_with(plan, words, moment, values);
        n = sets::insert(patterns, n, p);
    }
    n
}

// The list of a sheet at a moment, in the front of an array that has room for every list, and how many patterns it has; nothing where the parts are too many.
pub fn list_case(
    sheet: Accepted,
    moment: Moment,
    patterns: &mut [u32; limits::PARTS],
) -> Option<usize>
    requires { Ready sheet moment }
    ensures answer { result ≡ as_listed sheet moment }
    ensures space { patterns.new ≡ list_space sheet moment patterns.old }
{
    let mut flat = [0u32; outlook_parts::ROOM];
    let mut lens = [0usize; limits::FIELDS];
    let filled = outlook_parts::fill(
        &sheet.words,
        sheet.top,
        sheet.heads.fields,
        &moment.values,
        &mut flat,
        &mut lens,
    );
    let count = filled?;
    let n = collect(
        sheet.plan,
        &sheet.words,
        moment,
        count,
        &lens,
        &flat,
        patterns,
    );
    Some(n)
}

// The outlook of a sheet at a moment: the list at the start of `out`, and its length; MANY, or ROOM where it does not fit.
pub fn outlook_case(sheet: Accepted, moment: Moment, out: &mut [u32]) -> Reply
    requires { Ready sheet moment }
    ensures answer { result ≡ reply_for sheet moment (length out.old) }
    ensures space { out.new ≡ space_for sheet moment out.old }
{
    let mut patterns = [0u32; limits::PARTS];
    let listed = list_case(sheet, moment, &mut patterns);
    let Some(count) = listed else {
        return reply::refusal(reply::MANY, 0, 0);
    };
    if out.len() < count {
        return reply::refusal(reply::ROOM, 0, 0);
    }
    sets::copy_front(&patterns, count, out);
    Reply {
        number: 0,
        paper: 0,
        line: 0,
        count,
        tasks: 0,
    }
}
