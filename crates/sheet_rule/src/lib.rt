// Reading one rule's line: sign, status, trigger and condition.
#![tactic(auto)]

ghost use Rattle.std.specs.Prelude.{◌≡◌};
ghost use Rattle.meaning.specs.ReadSheet.{plain_end, asked_end, ending, rule};
ghost use Rattle.name.specs.Names.{names_in};
ghost use Rattle.cond_item.specs.Answers.{Ready, Stored};
ghost use Rattle.sheet_tables.specs.Rules.{words_of};
ghost use Rattle.sheet_rule.specs.Answers.{Room, as_row, rule_space};
ghost use Rattle.sheet_rule.specs.Parts.{as_ending, row_of, Fit};

use cond_item::Place;
use reply::Fault;
use sheet_tables::Rule;
use sheet_trigger::Start;

// A rule, how many bytes its line took behind the key, and the words and leaves that there are behind it.
#[derive(Clone, Copy)]
pub struct Row {
    pub rule: Rule,
    pub bytes: usize,
    pub top: usize,
    pub leaves: usize,
}

// The end of a line without ` if `, which has a trigger then.
#[tactic(auto, using(crate::proofs::Endings::plainly))]
fn plain_end(s: &[u8], top: usize, leaves: usize, on: bool) -> Result<Place, Fault>
    ensures { result ≡ as_ending s.now top leaves (plain_end on 0 s.now) }
{
    if !on {
        return Err(Fault::Line);
    }
    let bytes = text::due_text(s, b"\n", Fault::Line)?;
    Ok(Place { bytes, top, leaves })
}

// The condition behind ` if `, and the end of its line.
#[tactic(auto, using(crate::proofs::Endings::asking))]
fn asked_end(
    s: &[u8],
    fields: &[u64],
    statuses: &[u64],
    words: &mut [u64],
    top: usize,
    leaves: usize,
) -> Result<Place, Fault>
    requires { Ready (names_in statuses.now) (names_in fields.now) words.old top leaves }
    ensures answer { result ≡ as_ending s.now top leaves
        (asked_end (names_in fields.now) (names_in statuses.now) leaves 0 s.now) }
    ensures space { Stored words_of words.old words.new top
        (asked_end (names_in fields.now) (names_in statuses.now) leaves 0 s.now) }
{
    let p = cond_read::read_condition(s, statuses, fields, words, top, leaves)?;
    let end = text::due_text(text::rest(s, p.bytes), b"\n", Fault::Cond)?;
    Ok(Place {
        bytes: p.bytes + end,
        ..p
    })
}

// The line from ` if ` on, if it stands there.
#[tactic(auto, using(crate::proofs::Endings::ending_all))]
fn read_ending(
    s: &[u8],
    fields: &[u64],
    statuses: &[u64],
    words: &mut [u64],
    top: usize,
    leaves: usize,
    on: bool,
) -> Result<Place, Fault>
    requires { Ready (names_in statuses.now) (names_in fields.now) words.old top leaves }
    ensures answer { result ≡ as_ending s.now top leaves
        (ending (names_in fields.now) (names_in statuses.now) on leaves 0 s.now) }
    ensures space { Stored words_of words.old words.new top
        (ending (names_in fields.now) (names_in statuses.now) on leaves 0 s.now) }
{
    if !text::starts(s, b" if ") {
        return plain_end(s, top, leaves, on);
    }
    let p = asked_end(text::rest(s, 4), fields, statuses, words, top, leaves)?;
    Ok(Place {
        bytes: 4 + p.bytes,
        ..p
    })
}

// The rule that a line's start and its end make, whose words begin at `top`.
fn made(a: Start, p: Place, top: usize) -> Row
    requires { Fit a p top }
    ensures { result ≡ row_of a p top }
{
    let rule = Rule {
        plus: a.plus,
        status: a.status,
        trigger: a.trigger,
        from: top as u16,
        to: p.top as u16,
    };
    Row {
        rule,
        bytes: a.bytes + p.bytes,
        top: p.top,
        leaves: p.leaves,
    }
}

// The rule of a line behind its key; where the line is refused, words from `top` on may stand.
#[tactic(auto, using(crate::proofs::Rows::rowing))]
fn rule_row(
    s: &[u8],
    fields: &[u64],
    events: &[u64],
    statuses: &[u64],
    words: &mut [u64],
    top: usize,
    leaves: usize,
) -> Result<Row, Fault>
    requires { Room (names_in fields.now) (names_in events.now) (names_in statuses.now) words.old top leaves }
    ensures answer { result ≡ as_row s.now top leaves
        (rule (names_in fields.now) (names_in events.now) (names_in statuses.now) leaves 0 s.now) }
    ensures space { Stored (λ a. words_of a.condition) words.old words.new top
        (rule (names_in fields.now) (names_in events.now) (names_in statuses.now) leaves 0 s.now) }
{
    let a = sheet_trigger::read_start(s, events, statuses)?;
    let behind = text::rest(s, a.bytes);
    let p = read_ending(behind, fields, statuses, words, top, leaves, a.on)?;
    Ok(made(a, p, top))
}

// A rule's line behind its key, where the conditions before it have `top` words and `leaves` leaves. Where it is refused, the words from `top` on are cleared.
#[tactic(auto, using(crate::proofs::Rows::storing))]
pub fn read_rule(
    s: &[u8],
    fields: &[u64],
    events: &[u64],
    statuses: &[u64],
    words: &mut [u64],
    top: usize,
    leaves: usize,
) -> Result<Row, Fault>
    requires { Room (names_in fields.now) (names_in events.now) (names_in statuses.now) words.old top leaves }
    ensures answer { result ≡ as_row s.now top leaves
        (rule (names_in fields.now) (names_in events.now) (names_in statuses.now) leaves 0 s.now) }
    ensures space { words.new ≡ rule_space words.old top
        (rule (names_in fields.now) (names_in events.now) (names_in statuses.now) leaves 0 s.now) }
{
    let r = rule_row(s, fields, events, statuses, words, top, leaves);
    let Err(_) = r else {
        return r;
    };
    cond_item::clear(words, top);
    r
}
