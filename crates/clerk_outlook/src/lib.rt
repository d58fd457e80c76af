// What the clerk's program prints with the word `outlook` for the whole of its input, put into lent space.
#![tactic(auto)]

ghost use Rattle.std.specs.Prelude.{◌≤◌, length};
ghost use Rattle.meaning.specs.Doors.{read_case};
ghost use Rattle.meaning.specs.Clerk.{outlook_printed, outlook_output};
ghost use Rattle.theory.specs.Writing.Lent.{Wrote};
ghost use Rattle.sets.specs.Front.{Front};
ghost use Rattle.desk_rooms.specs.Rooms.{named_room};
ghost use Rattle.clerk_outlook.specs.Texts.{named_text, Named};

use case_read::Case;

// The outlook in names of a case that was read, or that it is refused.
fn print_named(case: Case, out: &mut [u8]) -> usize
    requires { Named case × (named_room ≤ length out.old) }
    ensures { Wrote 0 (named_text case) out.old out.new result }
{
    let moment = step_moment::moment_of(case.card, case.happening);
    let mut patterns = [0u32; limits::PARTS];
    let listed = outlook_case::list_case(case.sheet, moment, &mut patterns);
    let Some(count) = listed else {
        return desk_print::put_many(out, 0);
    };
    clerk_prospects::put_prospects(out, case.sheet.heads, &patterns[..count])
}

// What `outlook` prints for three papers: a refusal, or the outlook in names.
fn print_outlook(sheet: &[u8], card: &[u8], event: &[u8], out: &mut [u8]) -> usize
    requires { named_room ≤ length out.old }
    ensures { Wrote 0 (outlook_printed (read_case sheet.now card.now event.now))
        out.old out.new result }
{
    let case = case_read::read_case(sheet, card, event);
    if case.number != 0 {
        return desk_print::put_refusal(out, case.number, case.paper, case.line);
    }
    print_named(case, out)
}

// All that the clerk's program prints with the word `outlook`, at the start of `out`, which has at least `desk_rooms::NAMED` bytes; answers how long it is.
// Not inlined: put into its caller in C, it was compiled to a write at a wrong place (docs/DECISIONS.md, 'Today's Rattle').
#[inline(never)]
pub fn outlook_output(input: &[u8], out: &mut [u8]) -> usize
    requires { named_room ≤ length out.old }
    ensures { Front (outlook_output input.now) result out.old out.new }
{
    if limits::DESK_BYTES < input.len() {
        return desk_print::put_refusal(out, reply::LONG, 0, 0);
    }
    let a = desk_split::paper_len(input);
    let rest = text::rest(input, a);
    let b = desk_split::paper_len(rest);
    print_outlook(&input[..a], &rest[..b], text::rest(rest, b), out)
}
