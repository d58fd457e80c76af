// The event lines of a sheet.
#![tactic(auto)]

ghost use Rattle.std.specs.Prelude.{◌≡◌, length, eqb, leb, take, drop};
ghost use Rattle.std.specs.List.{list_any};
ghost use Rattle.meaning.specs.Text.{text, begins};
ghost use Rattle.meaning.specs.Limits.{event_limit};
ghost use Rattle.meaning.specs.Reading.{after};
ghost use Rattle.meaning.specs.ReadSheet.{event_lines};
ghost use Rattle.theory.specs.Papers.Formed.{NoEvents};
ghost use Rattle.name.specs.Names.{names_in};
ghost use Rattle.sheet_tables.specs.Heads.{heads_of};
ghost use Rattle.sheet_section.specs.Answers.{as_above_by, as_above, row_name, so_far_by};
ghost use Rattle.sheet_section.specs.Held.{Started, Reached};
ghost use Rattle.sheet_events.specs.Answers.{as_piece, end_of, piece};

use name::Name;
use reply::{Fault, ToldAt, Wrong};
use sheet_section::Above;
use sheet_tables::Heads;
use text::Taken;

// Whether an event that carries these fields carries the field already.
fn is_carried(so: &[u8], field: usize) -> bool
    ensures { result ≡ list_any (λ f. eqb f field) so.now }
{
    so.iter().any(|f| *f as usize == field)
}

// The key and the name of the next event, where there are `e` so far, and how many bytes they took; nothing where its key does not stand. The name is none of
// the first `n`.
fn event_name(t: &[u8], names: &[u64], n: usize, e: usize) -> Result<Option<Taken<Name>>, Fault>
    ensures { result ≡ row_name (text "event=") (leb event_limit e) (take n (names_in names.now)) t.now }
{
    sheet_section::row_name(t, b"event=", limits::EVENTS <= e, names, n)
}

// The end of an event's line, which is due where no further field stands.
fn line_end(t: &[u8]) -> Result<Option<Taken<usize>>, Fault>
    ensures { result ≡ end_of (begins (text "\n") t.now) }
{
    if !text::starts(t, b"\n") {
        return Err(Fault::Line);
    }
    Ok(None)
}

// The next piece of an event's line, where the fields in `so` are carried so far: a further one, and how many bytes that took; nothing where the line ends.
// None stands twice, and never more than there are.
fn next_piece(t: &[u8], heads: &Heads, so: &[u8]) -> Result<Option<Taken<usize>>, Fault>
    ensures { result ≡ as_piece t.now (piece (take heads.now.fields (names_in heads.now.names)) (leb heads.now.fields (length so.now)) so.now 0 t.now) }
{
    if !text::starts(t, b" ") {
        return line_end(t);
    }
    let field = name::known_name(text::rest(t, 1), &heads.names, 0, heads.fields)?;
    if heads.fields <= so.len() {
        return Err(Fault::Name);
    }
    if is_carried(so, field.value) {
        return Err(Fault::Name);
    }
    Ok(Some(Taken {
        value: field.value,
        bytes: field.bytes + 1,
    }))
}

// Line after line behind what was read before, and piece after piece of a line; the first fault ends the scan.
fn scan_events(s: &[u8], before: Above) -> Result<Above, Wrong>
    requires { Reached NoEvents s.now before }
    ensures { result ≡ as_above s.now (event_lines (heads_of before.heads) before.line (drop before.at s.now)) }
{
    // Stays: each section has its loop; said once it would take two closures, one that reads a row from the tables and one that puts it into them, no plainer.
    let mut above = before;
    let wrong = 'scan: loop {
        let line = above.line;
        let e = above.heads.events;
        let n = above.heads.fields + e;
        let from = limits::FIELDS * e;
        let name = match event_name(text::rest(s, above.at), &above.heads.names, n, e) {
            Err(fault) => break 'scan Wrong { fault, line },
            Ok(None) => return Ok(above),
            Ok(Some(name)) => name,
        };
        let t = text::rest(s, above.at + name.bytes);
        let mut carried = [0; limits::FIELDS];
        let mut count = 0;
        let mut at = 0;
        'pieces: loop {
            match next_piece(text::rest(t, at), &above.heads, &carried[..count]) {
                Err(fault) => break 'scan Wrong { fault, line },
                Ok(None) => break 'pieces,
                Ok(Some(field)) => {
                    carried[count] = field.value as u8;
                    count += 1;
                    at += field.bytes;
                }
            }
        }
        name::put(&mut above.heads.names, n, name.value);
        above.heads.carried[from..from + limits::FIELDS].copy_from_slice(&carried);
        above.heads.carries[e] = count as u8;
        above.heads.events = e + 1;
        above.line = line + 1;
        above.at += name.bytes + at + 1;
    };
    Err(wrong)
}

// The event lines, from where the sheet is read to.
pub fn read_events<W: ToldAt>(s: &[u8], before: Result<Above, W>) -> Result<Above, W>
    requires { Started NoEvents s.now before }
    ensures { result ≡ as_above_by W.with_number s.now (after (so_far_by W.number W.line s.now before) event_lines) }
{
    match before {
        Ok(above) => sheet_section::as_told(scan_events(s, above)),
        Err(refusal) => Err(refusal),
    }
}
