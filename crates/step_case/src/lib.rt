// The step of a case that was read: the marks after it, the tasks started, and the next card in lent space.
#![tactic(auto)]

ghost use Rattle.std.specs.Prelude.{◌≡◌, ◌≤◌, length};
ghost use Rattle.meaning.specs.Limits.{event_bytes, card_bytes};
ghost use Rattle.sheet_tables.specs.Heads.{Sized};
ghost use Rattle.card_write.specs.Answers.{space_with};
ghost use Rattle.step_case.specs.Next.{text_after, reply_after};

use case_tables::{Card, Happening};
use reply::Reply;
use step_sheet::Accepted;

// The step of the card and the event line that were read off these papers: the next card at the start of `out`, and what is returned; ROOM where it does not
// fit.
#[tactic(auto, using(crate::proofs::Laws::stepping))]
pub fn step_case<'a>(
    sheet: Accepted,
    given: Card,
    happening: Happening,
    card: &'a [u8],
    event: &'a [u8],
    out: &mut [u8],
) -> Reply
    requires { (Sized sheet.heads) × (length event.now ≤ event_bytes) × (length card.now ≤ card_bytes) }
    ensures answer { result ≡ reply_after sheet given happening card.now event.now (length out.old) }
    ensures space { out.new ≡ space_with out.old (text_after sheet given happening card.now event.now) }
{
    let under = sheet.heads.under;
    let before = given.marks;
    let moment = step_moment::moment_of(given, happening);
    let marks = step_run::run_step(sheet.plan, &sheet.words, moment);
    let written = card_write::write_card(out, sheet.heads, event, card, happening, given, marks);
    let Some(count) = written else {
        return reply::refusal(reply::ROOM, 0, 0);
    };
    Reply {
        number: 0,
        paper: 0,
        line: 0,
        count,
        tasks: step_moment::tasks_started(under, sheet.heads.stages, before, marks),
    }
}
