// Reading the event line of a sheet.
#![tactic(auto)]

ghost use Rattle.std.specs.Prelude.{◌≡◌, [], ◌+◌, ◌≤◌, ◌<◌, length, drop, get_or};
ghost use Rattle.meaning.specs.Limits.{event_bytes};
ghost use Rattle.meaning.specs.Reading.{answered};
ghost use Rattle.meaning.specs.Name.{known};
ghost use Rattle.meaning.specs.Sheet.{event_names};
ghost use Rattle.meaning.specs.Card.{spaced, happening, read_event};
ghost use Rattle.name.specs.Names.{names_in};
ghost use Rattle.name.specs.Answers.{as_known};
ghost use Rattle.card_lines.specs.Answers.{as_value};
ghost use Rattle.sheet_tables.specs.Heads.{Sized, heads_of};
ghost use Rattle.event_read.specs.Answers.{as_event_read};
ghost use Rattle.event_read.specs.Parts.{puts_from};

use card_lines::Shown;
use case_tables::Happening;
use reply::{Fault, Wrong};
use sheet_tables::Heads;
use text::Taken;

// An event line up to its end: the place come to, and what it tells.
#[derive(Clone, Copy)]
struct PutsRead {
    at: usize,
    happening: Happening,
}

// What is put into the field with the number `f`, from the place `at` on.
#[tactic(auto, using(crate::proofs::Events::put_at))]
fn read_put(names: &[u64], s: &[u8], f: u8, at: usize) -> Result<Shown, Fault>
    ensures { result ≡ as_value (length (get_or (names_in names.now) f []) + 2) (drop at s.now)
        (spaced (get_or (names_in names.now) f []) 0 (drop at s.now)) }
{
    card_lines::put_piece(text::rest(s, at), name::at(names, case_tables::place(f)))
}

// The pairs of an event line, one for each field that the event carries, from the place `from` on.
#[tactic(auto, using(crate::proofs::Events::putting))]
fn read_puts(h: &Heads, s: &[u8], event: usize, from: usize) -> Result<PutsRead, Wrong>
    requires { Sized h.now × (event < h.now.events) × (from ≤ length s.now) × (length s.now ≤ event_bytes) }
    ensures { result ≡ puts_from (heads_of h.now) event from s.now }
{
    let count = case_tables::place(h.carries[event]);
    let mut at = from;
    let mut fields = [0; limits::FIELDS];
    let mut values = [0; limits::FIELDS];
    let mut starts = [0; limits::FIELDS];
    let mut lengths = [0; limits::FIELDS];
    for i in 0..count {
        let f = h.carried[limits::FIELDS * event + i];
        let p = read_put(&h.names, s, f, at);
        let v = card_lines::on_line(p, 1)?;
        fields[i] = f;
        values[i] = v.value;
        starts[i] = at + v.start;
        lengths[i] = v.length;
        at = at + v.start + v.length;
    }
    let happening = Happening {
        event,
        count,
        fields,
        values,
        starts,
        lengths,
    };
    Ok(PutsRead { at, happening })
}

// The event that is named at the start of `s`.
#[tactic(auto, using(crate::proofs::Events::naming))]
fn event_name(h: &Heads, s: &[u8]) -> Result<Taken<usize>, Fault>
    requires { Sized h.now }
    ensures { result ≡ as_known s.now (known (event_names (heads_of h.now).events) 0 s.now) }
{
    name::known_name(s, &h.names, h.fields, h.fields + h.events)
}

// An event line, from the event's name to its end.
#[tactic(auto, using(crate::proofs::Events::event_lining))]
fn event_line(h: &Heads, s: &[u8]) -> Result<Happening, Wrong>
    requires { Sized h.now × (length s.now ≤ event_bytes) }
    ensures { result ≡ as_event_read (heads_of h.now) (answered 3 (happening (heads_of h.now) 1 s.now)) }
{
    let e = card_lines::on_line(event_name(h, s), 1)?;
    let p = read_puts(h, s, e.value, e.bytes)?;
    let happening = p.happening;
    let q = number::closing(text::rest(s, p.at));
    match q {
        Err(w) => Err(Wrong {
            fault: w.fault,
            line: 1 + w.line,
        }),
        Ok(_) => Ok(happening),
    }
}

// The event line of a sheet with these tables, or its refusal.
#[tactic(auto, using(crate::proofs::Events::event_papering))]
pub fn read_event(h: Heads, s: &[u8]) -> Result<Happening, Wrong>
    requires { Sized h }
    ensures { result ≡ as_event_read (heads_of h) (read_event (heads_of h) s.now) }
{
    if limits::EVENT_BYTES < s.len() {
        return Err(Wrong {
            fault: Fault::Long,
            line: 0,
        });
    }
    event_line(&h, s)
}
