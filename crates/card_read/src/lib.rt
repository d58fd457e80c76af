// Reading the card of a sheet.
#![tactic(auto)]

ghost use Rattle.std.specs.Prelude.{◌≡◌, ◌&&◌, ◌+◌, ◌≤◌, ◌<◌, length, take, drop};
ghost use Rattle.meaning.specs.Limits.{card_bytes, field_limit, status_limit};
ghost use Rattle.meaning.specs.Reading.{answered};
ghost use Rattle.meaning.specs.Card.{card, field_line, mark_line, shut, orphan, read_card};
ghost use Rattle.sheet_tables.specs.Heads.{Sized, under_of, heads_of};
ghost use Rattle.card_read.specs.Answers.{as_card_read};
ghost use Rattle.card_read.specs.Parts.{fields_from, marks_from, as_orphan};
ghost use Rattle.name.specs.Names.{names_in};
ghost use Rattle.marks.specs.Codes.{is_yes, side_of};

use case_tables::Card;
use marks::{Marks, Values};
use reply::{Fault, Wrong};
use sheet_tables::Heads;

// The line of the first field.
const FIRST: usize = 2;

// The lines of the fields: the place come to, and the values.
#[derive(Clone, Copy)]
struct FieldsRead {
    at: usize,
    values: Values,
    starts: [usize; limits::FIELDS],
    lengths: [usize; limits::FIELDS],
}

// The lines of the statuses: the place come to, and the marks.
#[derive(Clone, Copy)]
struct MarksRead {
    at: usize,
    marks: Marks,
}

// The lines of the first `count` fields, from the place `from` on.
#[tactic(auto, using(crate::proofs::Fields::fielding))]
fn read_fields(s: &[u8], names: &[u64], count: usize, from: usize) -> Result<FieldsRead, Wrong>
    requires { (count ≤ field_limit) × (count ≤ length (names_in names.now)) × (from ≤ length s.now) × (length s.now ≤ card_bytes) }
    ensures { result ≡ fields_from (take count (names_in names.now)) from s.now }
{
    let mut at = from;
    let mut values = [0; limits::FIELDS];
    let mut starts = [0; limits::FIELDS];
    let mut lengths = [0; limits::FIELDS];
    for i in 0..count {
        let p = card_lines::field_line(text::rest(s, at), name::at(names, i));
        let v = card_lines::on_line(p, FIRST + i)?;
        values[i] = v.value;
        starts[i] = at + v.start;
        lengths[i] = v.length;
        at = at + v.start + v.length + 1;
    }
    Ok(FieldsRead {
        at,
        values,
        starts,
        lengths,
    })
}

// The lines of `count` statuses whose names stand in the table from `first` on, from the place `from` on; the first of them is `line`.
#[tactic(auto, using(crate::proofs::Marks::marking))]
fn read_marks(
    s: &[u8],
    names: &[u64],
    first: usize,
    count: usize,
    from: usize,
    line: usize,
) -> Result<MarksRead, Wrong>
    requires { (count ≤ status_limit) × (first + count ≤ length (names_in names.now)) × (from ≤ length s.now) × (length s.now ≤ card_bytes)
        × (line ≤ field_line field_limit) }
    ensures { result ≡ marks_from (take count (drop first (names_in names.now))) from line s.now }
{
    let mut at = from;
    let mut marks = [0; limits::STATUSES];
    for i in 0..count {
        let p = card_lines::mark_line(text::rest(s, at), name::at(names, first + i));
        let m = card_lines::on_line(p, line + i)?;
        marks[i] = m.value;
        at += m.bytes;
    }
    Ok(MarksRead { at, marks })
}

// Whether a stage with this mark is yes under a parent that is no.
#[tactic(auto, using(crate::proofs::Marks::judging))]
fn is_orphan(marks: &Marks, mark: u8, under: u8) -> bool
    requires { under ≤ status_limit }
    ensures { result ≡ (is_yes mark && shut (side_of marks.now) (under_of under)) }
{
    mark == marks::YES && under != 0 && marks[under as usize - 1] != marks::YES
}

// The first stage that is yes under a parent that is no.
#[tactic(auto, using(crate::proofs::Marks::scanning))]
fn first_orphan(h: &Heads, marks: &Marks) -> Option<usize>
    requires { Sized h.now }
    ensures { result ≡ as_orphan (orphan (side_of marks.now) 0 (heads_of h.now).stages) }
{
    for x in 0..h.stages {
        if is_orphan(marks, marks[x], h.under[x]) {
            return Some(x);
        }
    }
    None
}

// The lines of a card, from the first to the last.
#[tactic(auto, using(crate::proofs::Cards::carding))]
fn card_lines(h: &Heads, s: &[u8]) -> Result<Card, Wrong>
    requires { Sized h.now × (length s.now ≤ card_bytes) }
    ensures { result ≡ as_card_read (heads_of h.now) (answered 2 (card (heads_of h.now) 1 s.now)) }
{
    let n = card_lines::on_line(card_lines::case_line(s, h.model), 1)?;
    let f = read_fields(s, &h.names, h.fields, n)?;
    let first = FIRST + h.fields;
    let count = h.stages + h.miles;
    let m = read_marks(s, &h.names, h.fields + h.events, count, f.at, first)?;
    let values = f.values;
    let starts = f.starts;
    let lengths = f.lengths;
    let marks = m.marks;
    let e = number::end_line(text::rest(s, m.at), h.fields + count);
    match e {
        Err(w) => Err(Wrong {
            fault: w.fault,
            line: first + count + w.line,
        }),
        Ok(_) => Ok(Card {
            values,
            starts,
            lengths,
            marks,
        }),
    }
}

// The number of the line of a stage.
#[tactic(auto, using(crate::proofs::Cards::lining))]
fn status_line(h: &Heads, x: usize) -> usize
    requires { Sized h.now × (x < h.now.stages) }
    ensures { result ≡ mark_line (length (heads_of h.now).fields) x }
{
    FIRST + h.fields + x
}

// The card of a sheet with these tables; ORPHAN with the line of the first stage that is yes under a parent that is no.
#[tactic(auto, using(crate::proofs::Cards::papering))]
pub fn read_card(h: Heads, s: &[u8]) -> Result<Card, Wrong>
    requires { Sized h }
    ensures { result ≡ as_card_read (heads_of h) (read_card (heads_of h) s.now) }
{
    if limits::CARD_BYTES < s.len() {
        return Err(Wrong {
            fault: Fault::Long,
            line: 0,
        });
    }
    let c = card_lines(&h, s)?;
    let o = first_orphan(&h, &c.marks);
    match o {
        None => Ok(c),
        Some(x) => Err(Wrong {
            fault: Fault::Orphan,
            line: status_line(&h, x),
        }),
    }
}
