// The three papers of a case, read: sheet, then card, then event line. The first refusal decides.
#![tactic(auto)]

ghost use Rattle.std.specs.Prelude.{◌≡◌};
ghost use Rattle.meaning.specs.Doors.{read_case};
ghost use Rattle.case_read.specs.Answers.{refused_case, as_case};

use case_tables::{Card, Happening};
use step_sheet::Accepted;

// What card and event line say, and the accepted sheet under which they do; or a refusal's number, not 0, its paper and its line.
#[derive(Clone, Copy)]
pub struct Case {
    pub number: u8,
    pub paper: u8,
    pub line: usize,
    pub card: Card,
    pub happening: Happening,
    pub sheet: Accepted,
}

// Nothing but a number, a paper and a line.
fn refused(number: u8, paper: u8, line: usize) -> Case
    ensures { result ≡ refused_case number paper line }
{
    Case {
        number,
        paper,
        line,
        card: Card {
            values: [0; limits::FIELDS],
            starts: [0; limits::FIELDS],
            lengths: [0; limits::FIELDS],
            marks: [0; limits::STATUSES],
        },
        happening: Happening {
            event: 0,
            count: 0,
            fields: [0; limits::FIELDS],
            values: [0; limits::FIELDS],
            starts: [0; limits::FIELDS],
            lengths: [0; limits::FIELDS],
        },
        sheet: step_sheet::refused(number, line),
    }
}

// Reads the three papers of a case: the sheet, the card, the event line; the first refusal decides.
pub fn read_case(sheet: &[u8], card: &[u8], event: &[u8]) -> Case
    ensures { result ≡ as_case (read_case sheet.now card.now event.now) }
{
    let accepted = case_sheet::accept(sheet);
    if accepted.number != 0 {
        return refused(accepted.number, reply::SHEET, accepted.line);
    }
    let given = match card_read::read_card(accepted.heads, card) {
        Ok(given) => given,
        Err(wrong) => return refused(reply::number(wrong.fault), reply::CARD, wrong.line),
    };
    let told = match event_read::read_event(accepted.heads, event) {
        Ok(told) => told,
        Err(wrong) => return refused(reply::number(wrong.fault), reply::EVENT, wrong.line),
    };
    Case {
        number: 0,
        paper: 0,
        line: 0,
        card: given,
        happening: told,
        sheet: accepted,
    }
}
