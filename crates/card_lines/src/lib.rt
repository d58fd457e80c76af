// The pieces and lines of a card and an event line.
#![tactic(auto)]

ghost use Rattle.std.specs.Prelude.{◌≡◌, ◌+◌, length};
ghost use Rattle.meaning.specs.Refusal.{LINE};
ghost use Rattle.meaning.specs.Reading.{one_of, line_end};
ghost use Rattle.meaning.specs.Card.{keyed, field_entry, status_mark, marks, ended, case_line, spaced};
ghost use Rattle.text.specs.Pieces.{as_length};
ghost use Rattle.name.specs.Names.{name_of};
ghost use Rattle.card_lines.specs.Answers.{bytes_fault, as_value, as_mark, on_line};

use name::Name;
use reply::{Fault, Told, Wrong};
use text::Taken;

// What stands behind `NAME=`: the value, behind how many bytes its text stands and how long that is.
#[derive(Clone, Copy)]
pub struct Shown {
    pub value: u64,
    pub start: usize,
    pub length: usize,
}

// The number of a refused piece; 0 where it was read.
pub fn bytes_fault<R: Told>(p: Result<usize, R>) -> u8
    ensures { result ≡ bytes_fault R.number p }
{
    match p {
        Ok(_bytes) => 0,
        Err(refusal) => refusal.number_told(),
    }
}

// What a piece of the line `line` says: its fault is told with that line.
pub fn on_line<T>(p: Result<T, Fault>, line: usize) -> Result<T, Wrong>
    ensures { result ≡ on_line p line }
{
    p.map_err(|fault| Wrong { fault, line })
}

// The LF that is due at the start of `s`.
#[tactic(auto, using(crate::proofs::Pieces::line_is))]
pub fn line_end(s: &[u8]) -> Result<usize, Fault>
    ensures { result ≡ as_length s.now (line_end LINE 0 s.now) }
{
    text::due_text(s, b"\n", Fault::Line)
}

// The name that is due at the start of `s`, and `=`.
fn key(s: &[u8], due: Name) -> Result<usize, Fault>
    ensures { result ≡ as_length s.now (keyed (name_of due) 0 s.now) }
{
    let n = name::due_name(s, due)?;
    let k = text::due_text(text::rest(s, n), b"=", Fault::Line)?;
    Ok(n + k)
}

// The name that is due, `=` and a value.
fn field_value(s: &[u8], due: Name) -> Result<Shown, Fault>
    ensures { result ≡ as_value (length (name_of due) + 1) s.now (field_entry (name_of due) 0 s.now) }
{
    let start = key(s, due)?;
    let e = number::entry_piece(text::rest(s, start))?;
    Ok(Shown {
        value: e.value,
        start,
        length: e.bytes,
    })
}

// A line of the card for a field.
pub fn field_line(s: &[u8], due: Name) -> Result<Shown, Fault>
    ensures { result ≡ as_value (length (name_of due) + 1) s.now (ended (field_entry (name_of due)) 0 s.now) }
{
    let v = field_value(s, due)?;
    line_end(text::rest(s, v.start + v.length))?;
    Ok(v)
}

// `yes` or `no`.
#[tactic(auto, using(crate::proofs::Pieces::wording))]
fn mark_piece(s: &[u8]) -> Result<Taken<u8>, Fault>
    ensures { result ≡ as_mark s.now (one_of LINE marks 0 s.now) }
{
    if text::starts(s, b"yes") {
        return Ok(Taken {
            value: marks::YES,
            bytes: 3,
        });
    }
    if text::starts(s, b"no") {
        return Ok(Taken {
            value: marks::NO,
            bytes: 2,
        });
    }
    Err(Fault::Line)
}

// A line of the card for a status.
pub fn mark_line(s: &[u8], due: Name) -> Result<Taken<u8>, Fault>
    ensures { result ≡ as_mark s.now (ended (status_mark (name_of due)) 0 s.now) }
{
    let n = key(s, due)?;
    let m = mark_piece(text::rest(s, n))?;
    let e = line_end(text::rest(s, n + m.bytes))?;
    Ok(Taken {
        value: m.value,
        bytes: n + m.bytes + e,
    })
}

// A space, the name that is due, `=` and a value.
pub fn put_piece(s: &[u8], due: Name) -> Result<Shown, Fault>
    ensures { result ≡ as_value (length (name_of due) + 2) s.now (spaced (name_of due) 0 s.now) }
{
    let n = text::due_text(s, b" ", Fault::Line)?;
    let v = field_value(text::rest(s, n), due)?;
    Ok(Shown {
        value: v.value,
        start: n + v.start,
        length: v.length,
    })
}

// The first line of a card: `case=` and the model's name.
pub fn case_line(s: &[u8], model: Name) -> Result<usize, Fault>
    ensures { result ≡ as_length s.now (case_line (name_of model) 0 s.now) }
{
    let n = text::due_text(s, b"case=", Fault::Line)?;
    let k = name::due_name(text::rest(s, n), model)?;
    let e = line_end(text::rest(s, n + k))?;
    Ok(n + k + e)
}

// Readers hand a fault on as it is. Its number is for callers outside, so that none but these calls what tells it.
#[cfg(test)]
mod tests {
    use super::*;

    #[test]
    fn numbers_of_pieces(rt: HostRuntime) {
        assert_eq!(rt; bytes_fault(line_end(b"\n")), 0);
        assert_eq!(rt; bytes_fault(line_end(b"=")), 2);
        assert_eq!(rt; bytes_fault(case_line(b"case=kin\n", name::no_name())), 3);
    }
}
