// A sheet that is accepted: its tables, and its tests listed by its testing order. Made once for a sheet, it serves every card and event line.
#![tactic(auto)]

ghost use Rattle.std.specs.Prelude.{◌≡◌};
ghost use Rattle.meaning.specs.Doors.{read_sheet};
ghost use Rattle.step_sheet.specs.Answers.{as_accepted};

use step_sheet::Accepted;

// Reads a sheet: its tables, with its tests in their testing order, or its refusal. One that is otherwise in order is refused with CYCLE where its graph has
// a cycle.
pub fn accept(s: &[u8]) -> Accepted
    ensures { result ≡ as_accepted (read_sheet s.now) }
{
    let mut words = [0; limits::WORDS];
    let read = match sheet_read::read_sheet(s, &mut words) {
        Ok(read) => read,
        Err(wrong) => return step_sheet::refused(reply::number(wrong.fault), wrong.line),
    };
    let under = read.heads.under;
    let tests = graph_tests::tests_of(
        read.rules,
        under,
        read.heads.fields,
        read.heads.events,
        read.heads.stages,
        read.heads.miles,
    );
    let statuses = read.heads.stages + read.heads.miles;
    let Some(order) = graph_edges::testing_order(tests, &words, statuses) else {
        return step_sheet::refused(reply::CYCLE, 0);
    };
    let plan = step_plan::plan_tests(tests, order, statuses * 2);
    let heads = read.heads;
    Accepted {
        number: 0,
        line: 0,
        heads,
        plan,
        top: read.rules.top,
        words,
    }
}
