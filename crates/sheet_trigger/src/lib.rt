// How a rule's line begins: its sign and status, and the trigger behind ` on `, if one stands there.
#![tactic(auto)]

ghost use Rattle.std.specs.Prelude.{◌≡◌, ◌≤◌, length, drop};
ghost use Rattle.meaning.specs.Refusal.{LINE};
ghost use Rattle.meaning.specs.Limits.{status_limit};
ghost use Rattle.meaning.specs.Reading.{one_of};
ghost use Rattle.meaning.specs.Name.{known};
ghost use Rattle.meaning.specs.ReadSheet.{signs, event_trigger, trigger, change, begun};
ghost use Rattle.name.specs.Names.{names_in};
ghost use Rattle.name.specs.Answers.{as_known};
ghost use Rattle.sheet_trigger.specs.Answers.{as_start};
ghost use Rattle.sheet_trigger.specs.Parts.{as_sign, moved, as_triggered};

use reply::Fault;
use sheet_tables::Trigger;
use text::Taken;

// How a rule's line begins: all before ` if `, whether ` on ` stands there, and how many bytes it took.
#[derive(Clone, Copy)]
pub struct Start {
    pub plus: bool,
    pub status: u8,
    pub trigger: Trigger,
    pub on: bool,
    pub bytes: usize,
}

// The name at the start of `s`, as its place in the table.
#[tactic(auto, using(crate::proofs::Pieces::known_all))]
fn known_in(s: &[u8], table: &[u64]) -> Result<Taken<usize>, Fault>
    ensures { result ≡ as_known s.now (known (names_in table.now) 0 s.now) }
{
    name::known_name(s, table, 0, name::count(table))
}

// The sign at the start of `s`, if one stands there: whether it is `+`.
#[tactic(auto, using(crate::proofs::Pieces::signing))]
fn sign(s: &[u8]) -> Option<bool>
    ensures { result ≡ as_sign (one_of LINE signs 0 s.now) }
{
    if text::starts(s, b"+") {
        return Some(true);
    }
    if text::starts(s, b"-") {
        return Some(false);
    }
    None
}

// The status behind the sign that `s` starts with, and how many bytes both took.
fn behind_sign(s: &[u8], statuses: &[u64]) -> Result<Taken<usize>, Fault>
    requires { 1 ≤ length s.now }
    ensures { result ≡ as_known s.now (known (names_in statuses.now) 0 (drop 1 s.now)) }
{
    let p = known_in(text::rest(s, 1), statuses)?;
    Ok(Taken {
        value: p.value,
        bytes: p.bytes + 1,
    })
}

// A status that rises, or one that falls.
fn moves(plus: bool, status: u8) -> Trigger
    ensures { result ≡ moved plus status }
{
    if plus {
        return Trigger::Rise(status);
    }
    Trigger::Fall(status)
}

// An event as a trigger.
#[tactic(auto, using(crate::proofs::Pieces::eventing))]
fn event_trigger(s: &[u8], events: &[u64]) -> Result<Taken<Trigger>, Fault>
    requires { length (names_in events.now) ≤ status_limit }
    ensures { result ≡ as_triggered s.now (event_trigger (names_in events.now) 0 s.now) }
{
    let p = known_in(s, events)?;
    Ok(Taken {
        value: Trigger::Event(p.value as u8),
        bytes: p.bytes,
    })
}

// "A trigger is an event, or `+` or `-` and a status": where no sign stands, an event's name is due.
#[tactic(auto, using(crate::proofs::Pieces::triggering))]
fn read_trigger(s: &[u8], events: &[u64], statuses: &[u64]) -> Result<Taken<Trigger>, Fault>
    requires { (length (names_in events.now) ≤ status_limit) × (length (names_in statuses.now) ≤ status_limit) }
    ensures { result ≡ as_triggered s.now (trigger (names_in events.now) (names_in statuses.now) 0 s.now) }
{
    let Some(plus) = sign(s) else {
        return event_trigger(s, events);
    };
    let p = behind_sign(s, statuses)?;
    Ok(Taken {
        value: moves(plus, p.value as u8),
        bytes: p.bytes,
    })
}

// The sign and the status that a rule's line begins with.
#[tactic(auto, using(crate::proofs::Pieces::changing))]
fn read_change(s: &[u8], statuses: &[u64]) -> Result<Start, Fault>
    requires { length (names_in statuses.now) ≤ status_limit }
    ensures { result ≡ as_start s.now (change (names_in statuses.now) 0 s.now) }
{
    let Some(plus) = sign(s) else {
        return Err(Fault::Line);
    };
    let p = behind_sign(s, statuses)?;
    Ok(Start {
        plus,
        status: p.value as u8,
        trigger: Trigger::Always,
        on: false,
        bytes: p.bytes,
    })
}

// A rule's line behind its key, up to ` if `: sign, status and trigger.
#[tactic(auto, using(crate::proofs::Pieces::starting))]
pub fn read_start(s: &[u8], events: &[u64], statuses: &[u64]) -> Result<Start, Fault>
    requires { (length (names_in events.now) ≤ status_limit) × (length (names_in statuses.now) ≤ status_limit) }
    ensures { result ≡ as_start s.now (begun (names_in events.now) (names_in statuses.now) 0 s.now) }
{
    let start = read_change(s, statuses)?;
    let behind = text::rest(s, start.bytes);
    if !text::starts(behind, b" on ") {
        return Ok(start);
    }
    let t = read_trigger(text::rest(behind, 4), events, statuses)?;
    Ok(Start {
        trigger: t.value,
        on: true,
        bytes: start.bytes + 4 + t.bytes,
        ..start
    })
}
