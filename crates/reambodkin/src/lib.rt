// The doors: what callers outside may ask for a case, on the bytes of its three papers and the space that they lend.
#![tactic(auto)]

ghost use Rattle.std.specs.Prelude.{◌≡◌, length};
ghost use Rattle.meaning.specs.Doors.{step_reply, step_space, outlook_reply, outlook_space, why_reply, why_space};
ghost use Rattle.reply.specs.Answers.{as_reply};

use reply::Reply;

// One step: the next card at the start of `out`, how long it is, and the tasks started; or a refusal, and `out` is untouched.
pub fn step<'a>(sheet: &[u8], card: &'a [u8], event: &'a [u8], out: &mut [u8]) -> Reply
    ensures answer { result ≡ as_reply (step_reply sheet.now card.now event.now (length out.old)) }
    ensures space { out.new ≡ step_space sheet.now card.now event.now out.old }
{
    let case = case_read::read_case(sheet, card, event);
    if case.number != 0 {
        return reply::refusal(case.number, case.paper, case.line);
    }
    step_case::step_case(case.sheet, case.card, case.happening, card, event, out)
}

// The outlook: every pattern that may still come, ascending, at the start of `out`, and how many there are; or a refusal, and `out` is untouched.
pub fn outlook(sheet: &[u8], card: &[u8], event: &[u8], out: &mut [u32]) -> Reply
    ensures answer { result ≡ as_reply (outlook_reply sheet.now card.now event.now (length out.old)) }
    ensures space { out.new ≡ outlook_space sheet.now card.now event.now out.old }
{
    let case = case_read::read_case(sheet, card, event);
    if case.number != 0 {
        return reply::refusal(case.number, case.paper, case.line);
    }
    let moment = step_moment::moment_of(case.card, case.happening);
    outlook_case::outlook_case(case.sheet, moment, out)
}

// Why each status changed, or what stopped each line of its change: the reasons as numbers, ascending, at the start of `out`, and how many there are; or a
// refusal, and `out` is untouched.
pub fn why(sheet: &[u8], card: &[u8], event: &[u8], out: &mut [u32]) -> Reply
    ensures answer { result ≡ as_reply (why_reply sheet.now card.now event.now (length out.old)) }
    ensures space { out.new ≡ why_space sheet.now card.now event.now out.old }
{
    let case = case_read::read_case(sheet, card, event);
    if case.number != 0 {
        return reply::refusal(case.number, case.paper, case.line);
    }
    let moment = step_moment::moment_of(case.card, case.happening);
    why_case::why_case(case.sheet, moment, out)
}
