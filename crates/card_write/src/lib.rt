// Writing the next card into lent space.
#![tactic(auto)]

ghost use Rattle.std.specs.Prelude.{◌≡◌, ◌≤◌, ◌+◌, ◌*◌, ℕ, List, length, take, get_or};
ghost use Rattle.meaning.specs.Limits.{card_bytes, event_bytes, status_limit};
ghost use Rattle.limits.specs.Sizes.{name_room};
ghost use Rattle.name.specs.Names.{names_in};
ghost use Rattle.sheet_tables.specs.Heads.{Sized, heads_of};
ghost use Rattle.theory.specs.Writing.Lent.{Wrote};
ghost use Rattle.card_write.specs.Texts.{part, carried_in, value_text, next_text};
ghost use Rattle.card_write.specs.Lines.{mark_at, lines_from, text_room, line_room};
ghost use Rattle.card_write.specs.Answers.{as_written, space_with};

use case_tables::{Card, Happening};
use marks::Marks;
use sheet_tables::Heads;

// What the lines of a table of names show: a text for each place.
trait Texts {
    ghost text: { Self → ℕ → List ℕ };

    // The text at a place.
    fn text_at(&self, i: usize) -> &[u8]
        ensures { result.now ≡ text self.now i };
}

// The event line and the card, and where their values' texts stand.
#[derive(Clone, Copy)]
struct Papers<'a> {
    event: &'a [u8],
    card: &'a [u8],
    e: &'a Happening,
    c: &'a Card,
}

// Each field shows the part of the event line or of the card that has its value.
impl<'a> Texts for Papers<'a> {
    ghost text = { λ p. value_text p.event.now p.card.now p.e.now p.c.now };

    #[tactic(auto, unfolding(crate::specs::Texts::value_text))]
    fn text_at(&self, f: usize) -> &[u8] {
        match carried_at(&self.e.fields, self.e.count, f) {
            Some(i) => part_of(
                self.event,
                number_at(&self.e.starts, i),
                number_at(&self.e.lengths, i),
            ),
            None => part_of(
                self.card,
                number_at(&self.c.starts, f),
                number_at(&self.c.lengths, f),
            ),
        }
    }
}

// Each status shows the word of its mark.
impl Texts for Marks {
    ghost text = { mark_at };

    fn text_at(&self, x: usize) -> &[u8] {
        space::mark_word(self.get(x).copied().unwrap_or(marks::NO))
    }
}

// The part of `s` that begins at `start` and has `len` bytes, as far as `s` goes.
fn part_of(s: &[u8], start: usize, len: usize) -> &[u8]
    ensures { result.now ≡ part s.now start len }
{
    let behind = s.get(start..).unwrap_or(&[]);
    behind.get(..len).unwrap_or(behind)
}

// The number at a place; 0 where there is none.
fn number_at(xs: &[usize], i: usize) -> usize
    ensures { result ≡ get_or xs.now i 0 }
{
    xs.get(i).copied().unwrap_or(0)
}

// Where field `f` stands first among the `count` fields that an event line carries.
fn carried_at(fields: &[u8], count: usize, f: usize) -> Option<usize>
    ensures { result ≡ carried_in f (take count fields.now) }
{
    fields
        .iter()
        .take(count)
        .position(|x| case_tables::place(*x) == f)
}

// Puts a line for each of the names at a place of `out`, with the text of its place.
#[tactic(auto, using(crate::proofs::Rows::writing))]
fn lines_at<T: Texts>(out: &mut [u8], at: usize, names: &[u64], texts: &T) -> usize
    requires { at + length (lines_from (T.text texts.now) (names_in names.now) 0) ≤ length out.old }
    ensures { Wrote at (lines_from (T.text texts.now) (names_in names.now) 0) out.old out.new result }
{
    let mut to = at;
    for i in 0..name::count(names) {
        to = space::line_at(out, to, name::at(names, i), texts.text_at(i));
    }
    to
}

// How long they are.
// Stays: lines_at and this are no plainer as one: to measure asks for no room and keeps within a bound, so one walk needs a trait with laws of room.
#[tactic(auto, using(crate::proofs::Rows::measuring))]
fn lines_len<T: Texts>(names: &[u64], texts: &T) -> usize
    requires few { length (names_in names.now) ≤ status_limit }
    requires short { (i : ℕ) → length (T.text texts.now i) ≤ text_room }
    ensures { (result ≡ length (lines_from (T.text texts.now) (names_in names.now) 0)) × (result ≤ status_limit * line_room) }
{
    let mut k = 0;
    for i in 0..name::count(names) {
        k = k + name::name_len(name::at(names, i)) + texts.text_at(i).len() + 2;
    }
    k
}

// How long the next card is.
// Stays: this and put_card are no plainer as one, as with lines_len; each is the four pieces of the card.
#[tactic(auto, using(crate::proofs::Whole::measuring))]
fn card_len(h: Heads, papers: &Papers, marks: Marks) -> usize
    requires { Sized h × (length (names_in h.names) ≡ name_room) × (length marks ≡ status_limit) × (length papers.now.event.now ≤ event_bytes)
        × (length papers.now.card.now ≤ card_bytes) }
    ensures { result ≡ length (next_text (heads_of h) papers.now.event.now papers.now.card.now papers.now.e.now papers.now.c.now marks) }
{
    let fields = name::part(&h.names, 0, h.fields);
    let statuses = name::part(&h.names, h.fields + h.events, h.stages + h.miles);
    let first = name::name_len(h.model) + 6;
    let last = space::count_len(h.fields + name::count(statuses)) + 5;
    first + lines_len(fields, papers) + lines_len(statuses, &marks) + last
}

// Puts the next card, which fits, at the start of `out`.
#[tactic(auto, using(crate::proofs::Whole::carding))]
fn put_card(out: &mut [u8], h: Heads, papers: &Papers, marks: Marks) -> usize
    requires { Sized h × (length (names_in h.names) ≡ name_room) × (length marks ≡ status_limit)
        × (length (next_text (heads_of h) papers.now.event.now papers.now.card.now papers.now.e.now papers.now.c.now marks) ≤ length out.old) }
    ensures { Wrote 0 (next_text (heads_of h) papers.now.event.now papers.now.card.now papers.now.e.now papers.now.c.now marks) out.old out.new result }
{
    let fields = name::part(&h.names, 0, h.fields);
    let statuses = name::part(&h.names, h.fields + h.events, h.stages + h.miles);
    let a = space::put_case(out, h.model);
    let b = lines_at(out, a, fields, papers);
    let c = lines_at(out, b, statuses, &marks);
    space::put_end(out, c, h.fields + name::count(statuses))
}

// The next card, line by line, at the start of `out`, and how many bytes it has; `None` and nothing written where it does not fit.
#[tactic(auto, using(crate::proofs::Whole::rooming))]
pub fn write_card<'a>(
    out: &mut [u8],
    h: Heads,
    event: &'a [u8],
    card: &'a [u8],
    e: Happening,
    c: Card,
    marks: Marks,
) -> Option<usize>
    requires { (Sized h) × (length event.now ≤ event_bytes) × (length card.now ≤ card_bytes) }
    ensures answer { result ≡ as_written out.old (next_text (heads_of h) event.now card.now e c marks) }
    ensures space { out.new ≡ space_with out.old (next_text (heads_of h) event.now card.now e c marks) }
{
    let papers = Papers {
        event,
        card,
        e: &e,
        c: &c,
    };
    let n = card_len(h, &papers, marks);
    if out.len() < n {
        return None;
    }
    put_card(out, h, &papers, marks);
    Some(n)
}
