// A sheet that is accepted, as the step, the outlook and the reasons take it: its tables, and its tests listed by its testing order.
#![tactic(auto)]

ghost use Rattle.std.specs.Prelude.{◌≡◌};
ghost use Rattle.step_sheet.specs.Answers.{refused_sheet};

use sheet_tables::Heads;
use step_plan::Plan;

// The sheet; or a refusal's number, not 0, and its line.
#[derive(Clone, Copy)]
pub struct Accepted {
    pub number: u8,
    pub line: usize,
    pub heads: Heads,
    // The tests in their testing order, two nodes for each status.
    pub plan: Plan,
    // How many words all conditions have, and the words.
    pub top: usize,
    pub words: [u64; limits::WORDS],
}

// A refused sheet: its number and line, and blank tables.
pub fn refused(number: u8, line: usize) -> Accepted
    ensures { result ≡ refused_sheet number line }
{
    let order = [0; limits::NODES];
    Accepted {
        number,
        line,
        heads: sheet_tables::no_heads(),
        plan: step_plan::plan_tests(graph_tests::no_tests(), order, 0),
        top: 0,
        words: [0; limits::WORDS],
    }
}
