// What the clerk's program prints for a sheet alone, put into lent space.
// With the word `check` it is what the sheet holds or where its circle is, with `blank` its card before anything was asked.
#![tactic(auto)]

ghost use Rattle.std.specs.Prelude.{◌≤◌, length};
ghost use Rattle.meaning.specs.Clerk.{check_output, blank_card, blank_output};
ghost use Rattle.sheet_tables.specs.Heads.{Sized, heads_of};
ghost use Rattle.sets.specs.Front.{Front};
ghost use Rattle.desk_rooms.specs.Rooms.{check_room, card_room};

use case_tables::{Card, Happening};
use sheet_tables::Heads;

// All that is printed for a sheet with the word `check`: its refusal, with the circle where its rules depend on each other in one; or what it holds. `out`
// has at least `desk_rooms::CHECK` bytes.
pub fn check_output(input: &[u8], out: &mut [u8]) -> usize
    requires { check_room ≤ length out.old }
    ensures { Front (check_output input.now) result out.old out.new }
{
    let mut words = [0; limits::WORDS];
    let read = match sheet_read::read_sheet(input, &mut words) {
        Ok(read) => read,
        Err(wrong) => {
            let number = reply::number(wrong.fault);
            return desk_print::put_refusal(out, number, reply::SHEET, wrong.line);
        }
    };
    let under = read.heads.under;
    let tests = graph_tests::tests_of(
        read.rules,
        under,
        read.heads.fields,
        read.heads.events,
        read.heads.stages,
        read.heads.miles,
    );
    clerk_rounds::put_sheet(
        out,
        read.heads,
        read.rules.count,
        read.rules.leaves,
        tests,
        &words,
    )
}

// The card with `?` in every field and no for every status, which fits.
// It is written as a next card is: every field shows the one byte of its card's text, no event changes that, and no status is yes.
fn put_blank(out: &mut [u8], heads: Heads) -> usize
    requires { Sized heads × (length (blank_card (heads_of heads)) ≤ length out.old) }
    ensures { Front (blank_card (heads_of heads)) result out.old out.new }
{
    let given = Card {
        values: [0; limits::FIELDS],
        starts: [0; limits::FIELDS],
        lengths: [1; limits::FIELDS],
        marks: [marks::NO; limits::STATUSES],
    };
    let happening = Happening {
        event: 0,
        count: 0,
        fields: [0; limits::FIELDS],
        values: [0; limits::FIELDS],
        starts: [0; limits::FIELDS],
        lengths: [0; limits::FIELDS],
    };
    let after = [marks::NO; limits::STATUSES];
    card_write::write_card(out, heads, b"", b"?", happening, given, after).unwrap_or(0)
}

// All that is printed for a sheet with the word `blank`: its refusal, or its blank card. `out` has at least `desk_rooms::CARD` bytes.
pub fn blank_output(input: &[u8], out: &mut [u8]) -> usize
    requires { card_room ≤ length out.old }
    ensures { Front (blank_output input.now) result out.old out.new }
{
    let sheet = case_sheet::accept(input);
    if sheet.number != 0 {
        return desk_print::put_refusal(out, sheet.number, reply::SHEET, sheet.line);
    }
    put_blank(out, sheet.heads)
}
