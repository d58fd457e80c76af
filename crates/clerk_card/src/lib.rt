// What the clerk's program prints with the word `card` for the whole of its input, put into lent space.
#![tactic(auto)]

ghost use Rattle.std.specs.Prelude.{◌≤◌, length};
ghost use Rattle.meaning.specs.Doors.{read_case};
ghost use Rattle.meaning.specs.Clerk.{card_printed, card_output};
ghost use Rattle.theory.specs.Writing.Lent.{Wrote};
ghost use Rattle.sets.specs.Front.{Front};
ghost use Rattle.desk_rooms.specs.Rooms.{card_room};

// What `card` prints for three papers: the next card, and no more of the step.
fn print_card<'a>(sheet: &[u8], card: &'a [u8], event: &'a [u8], out: &mut [u8]) -> usize
    requires { card_room ≤ length out.old }
    ensures { Wrote 0 (card_printed (read_case sheet.now card.now event.now)) out.old out.new result }
{
    let case = case_read::read_case(sheet, card, event);
    if case.number != 0 {
        return desk_print::put_refusal(out, case.number, case.paper, case.line);
    }
    let reply = step_case::step_case(case.sheet, case.card, case.happening, card, event, out);
    reply.count
}

// All that the clerk's program prints with the word `card`, at the start of `out`, which has at least `desk_rooms::CARD` bytes; answers how long it is.
pub fn card_output(input: &[u8], out: &mut [u8]) -> usize
    requires { card_room ≤ length out.old }
    ensures { Front (card_output input.now) result out.old out.new }
{
    if limits::DESK_BYTES < input.len() {
        return desk_print::put_refusal(out, reply::LONG, 0, 0);
    }
    let a = desk_split::paper_len(input);
    let rest = text::rest(input, a);
    let b = desk_split::paper_len(rest);
    print_card(&input[..a], &rest[..b], text::rest(rest, b), out)
}
