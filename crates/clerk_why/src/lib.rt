// What the clerk's program prints with the word `why` for the whole of its input, put into lent space.
#![tactic(auto)]

ghost use Rattle.std.specs.Prelude.{◌≤◌, length};
ghost use Rattle.meaning.specs.Doors.{read_case};
ghost use Rattle.meaning.specs.Clerk.{why_printed, why_output};
ghost use Rattle.theory.specs.Writing.Lent.{Wrote};
ghost use Rattle.sets.specs.Front.{Front};
ghost use Rattle.desk_rooms.specs.Rooms.{why_room};

// What `why` prints for three papers: a refusal, or a line for each reason.
fn print_why(sheet: &[u8], card: &[u8], event: &[u8], out: &mut [u8]) -> usize
    requires { why_room ≤ length out.old }
    ensures { Wrote 0 (why_printed sheet.now (read_case sheet.now card.now event.now)) out.old
        out.new result }
{
    let case = case_read::read_case(sheet, card, event);
    if case.number != 0 {
        return desk_print::put_refusal(out, case.number, case.paper, case.line);
    }
    let moment = step_moment::moment_of(case.card, case.happening);
    let mut list = [0u32; limits::TESTS];
    let reply = why_case::why_case(case.sheet, moment, &mut list);
    let marks = moment.before;
    clerk_reasons::put_reasons(out, sheet, case.sheet.heads, marks, &list[..reply.count])
}

// All that the clerk's program prints with the word `why`, at the start of `out`, which has at least `desk_rooms::WHY` bytes; answers how long it is.
pub fn why_output(input: &[u8], out: &mut [u8]) -> usize
    requires { why_room ≤ length out.old }
    ensures { Front (why_output input.now) result out.old out.new }
{
    if limits::DESK_BYTES < input.len() {
        return desk_print::put_refusal(out, reply::LONG, 0, 0);
    }
    let a = desk_split::paper_len(input);
    let rest = text::rest(input, a);
    let b = desk_split::paper_len(rest);
    print_why(&input[..a], &rest[..b], text::rest(rest, b), out)
}
