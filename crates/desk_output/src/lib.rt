// The desk program's output: what it prints for the whole of its input, put into lent space.
#![tactic(auto)]

ghost use Rattle.std.specs.Prelude.{◌≤◌, ◌+◌, length};
ghost use Rattle.meaning.specs.Text.{joined};
ghost use Rattle.meaning.specs.Doors.{read_case};
ghost use Rattle.meaning.specs.Limits.{card_bytes, event_bytes};
ghost use Rattle.meaning.specs.Desk.{outlook_lines, printed, desk_output};
ghost use Rattle.limits.specs.Sizes.{name_room};
ghost use Rattle.name.specs.Names.{names_in};
ghost use Rattle.sheet_tables.specs.Heads.{Sized};
ghost use Rattle.step_moment.specs.Tables.{moment_of};
ghost use Rattle.theory.specs.Writing.Lent.{Wrote};
ghost use Rattle.sets.specs.Front.{Front};
ghost use Rattle.outlook_case.specs.Patterns.{Ready, answer_of};
ghost use Rattle.desk_rooms.specs.Rooms.{list_room, desk_room};
ghost use Rattle.desk_print.specs.Lines.{pattern_text};
ghost use Rattle.desk_output.specs.Texts.{starts_text, tasks_text, step_text};

use case_read::Case;
use sheet_tables::Heads;
use step_sheet::Accepted;
use step_test::Moment;

// A line for each task: `count` names from place `first` on, told by the bits of `tasks` from the lowest.
fn put_starts(
    out: &mut [u8],
    at: usize,
    names: &[u64],
    first: usize,
    count: usize,
    tasks: u32,
) -> usize
    requires { (first + count ≤ name_room) × (at + length (starts_text (names_in names.now) first count tasks) ≤ length out.old) }
    ensures { Wrote at (starts_text (names_in names.now) first count tasks) out.old out.new result }
{
    let mut to = at;
    let mut i = first;
    let mut left = count;
    let mut t = tasks;
    while 0 < left {
        let w = name::at(names, i);
        to = desk_print::put_start(out, to, w, t);
        i += 1;
        left -= 1;
        t = t / 2;
    }
    to
}

// A line for each pattern.
fn put_patterns(out: &mut [u8], at: usize, patterns: &[u32]) -> usize
    requires { at + length (joined pattern_text patterns.now) ≤ length out.old }
    ensures { Wrote at (joined pattern_text patterns.now) out.old out.new result }
{
    let mut to = at;
    let mut i = 0;
    while i < patterns.len() {
        to = desk_print::put_pattern(out, to, patterns[i]);
        i += 1;
    }
    to
}

// The outlook: a line for each pattern, or that it is refused.
fn put_outlook(out: &mut [u8], at: usize, sheet: Accepted, moment: Moment) -> usize
    requires { Ready sheet moment × (at + list_room ≤ length out.old) }
    ensures { Wrote at (outlook_lines (answer_of sheet moment)) out.old out.new result }
{
    let mut patterns = [0u32; limits::PARTS];
    let listed = outlook_case::list_case(sheet, moment, &mut patterns);
    let Some(count) = listed else {
        return desk_print::put_many(out, at);
    };
    put_patterns(out, at, &patterns[..count])
}

// A line for each task of a sheet's stages.
fn put_tasks(out: &mut [u8], at: usize, heads: Heads, tasks: u32) -> usize
    requires { Sized heads × (at + length (tasks_text heads tasks) ≤ length out.old) }
    ensures { Wrote at (tasks_text heads tasks) out.old out.new result }
{
    let names = heads.names;
    let first = heads.fields + heads.events;
    put_starts(out, at, &names, first, heads.stages, tasks)
}

// The next card and the tasks of a case that was read off these papers.
fn put_step<'a>(case: Case, card: &'a [u8], event: &'a [u8], out: &mut [u8]) -> usize
    requires { Sized case.sheet.heads × (length event.now ≤ event_bytes) × (length card.now ≤ card_bytes)
        × (0 + length (step_text case card.now event.now) ≤ length out.old) }
    ensures { Wrote 0 (step_text case card.now event.now) out.old out.new result }
{
    let reply = step_case::step_case(case.sheet, case.card, case.happening, card, event, out);
    put_tasks(out, reply.count, case.sheet.heads, reply.tasks)
}

// The outlook of a case that was read.
fn put_coming(case: Case, out: &mut [u8], at: usize) -> usize
    requires { Ready case.sheet (moment_of case.card case.happening) × (at + list_room ≤ length out.old) }
    ensures { Wrote at (outlook_lines (answer_of case.sheet (moment_of case.card case.happening))) out.old out.new result }
{
    let moment = step_moment::moment_of(case.card, case.happening);
    put_outlook(out, at, case.sheet, moment)
}

// What is printed for three papers: a refusal, or the next card, the tasks and the outlook.
fn print_case<'a>(sheet: &[u8], card: &'a [u8], event: &'a [u8], out: &mut [u8]) -> usize
    requires { desk_room ≤ length out.old }
    ensures { Wrote 0 (printed (read_case sheet.now card.now event.now)) out.old out.new result }
{
    let case = case_read::read_case(sheet, card, event);
    if case.number != 0 {
        return desk_print::put_refusal(out, case.number, case.paper, case.line);
    }
    let at = put_step(case, card, event, out);
    put_coming(case, out, at)
}

// All that the desk program prints for its input, at the start of `out`, which has at least `desk_rooms::DESK` bytes; answers how long it is.
pub fn desk_output(input: &[u8], out: &mut [u8]) -> usize
    requires { desk_room ≤ length out.old }
    ensures { Front (desk_output input.now) result out.old out.new }
{
    if limits::DESK_BYTES < input.len() {
        return desk_print::put_refusal(out, reply::LONG, 0, 0);
    }
    let a = desk_split::paper_len(input);
    let rest = text::rest(input, a);
    let b = desk_split::paper_len(rest);
    print_case(&input[..a], &rest[..b], text::rest(rest, b), out)
}
