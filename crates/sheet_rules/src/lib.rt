// Reading the rules of a sheet, line after line, and the last line `end=`.
#![tactic(auto)]

ghost use Rattle.std.specs.Prelude.{◌≡◌, [], ◌+◌, take, drop};
ghost use Rattle.meaning.specs.Text.{text, begins};
ghost use Rattle.meaning.specs.Limits.{rule_limit};
ghost use Rattle.meaning.specs.ReadSheet.{rule_row, section, rules_of};
ghost use Rattle.name.specs.Names.{names_in};
ghost use Rattle.cond_item.specs.Answers.{Stored};
ghost use Rattle.sheet_tables.specs.Rules.{all_words};
ghost use Rattle.sheet_rule.specs.Answers.{Room};
ghost use Rattle.sheet_rules.specs.Answers.{Ready, as_rules_read, words_space};
ghost use Rattle.sheet_rules.specs.Parts.{RowsAs};

use reply::{Fault, Wrong};
use sheet_tables::Rules;
use text::Taken;

// How many rules a sheet may have.
const RULES: usize = limits::RULES;

// Whether the line of a rule begins here.
fn rule_stands(s: &[u8]) -> bool
    ensures { result ≡ begins (text "rule=") s.now }
{
    text::starts(s, b"rule=")
}

// The lines of the rules, one after another, up to the first line of another key, and how many bytes they took. Each rule stands on a line of its own.
#[tactic(auto, using(crate::proofs::Scan::scanning))]
fn read_rows(
    s: &[u8],
    fields: &[u64],
    events: &[u64],
    statuses: &[u64],
    words: &mut [u64],
) -> Result<Taken<Rules>, Wrong>
    requires { Room (names_in fields.now) (names_in events.now) (names_in statuses.now) words.old 0 0 }
    ensures { RowsAs s.now words.old words.new result (section (text "rule=") (rule_row (names_in fields.now)
        (names_in events.now) (names_in statuses.now)) rule_limit [] 0 s.now) }
{
    let mut rules = sheet_tables::no_rules();
    let mut at = 0;
    'scan: while rule_stands(text::rest(s, at)) {
        let line = rules.count;
        if RULES <= line {
            return Err(Wrong {
                fault: Fault::Full,
                line,
            });
        }
        let behind = at + 5;
        let rest = text::rest(s, behind);
        let top = rules.top;
        let leaves = rules.leaves;
        let row = sheet_rule::read_rule(rest, fields, events, statuses, words, top, leaves).map_err(
            |fault| Wrong { fault, line },
        )?;
        rules.rows[line] = row.rule;
        rules.count = line + 1;
        rules.top = row.top;
        rules.leaves = row.leaves;
        at = behind + row.bytes;
    }
    Ok(Taken {
        value: rules,
        bytes: at,
    })
}

// The rules and their last line, with a table for each kind of name; where they are refused, words may stand.
#[tactic(auto, using(crate::proofs::Whole::wholly))]
fn read_lines(
    s: &[u8],
    fields: &[u64],
    events: &[u64],
    statuses: &[u64],
    words: &mut [u64],
) -> Result<Rules, Wrong>
    requires { Room (names_in fields.now) (names_in events.now) (names_in statuses.now) words.old 0 0 }
    ensures answer { result ≡ as_rules_read
        (rules_of (names_in fields.now) (names_in events.now) (names_in statuses.now) 0 s.now) }
    ensures space { Stored all_words words.old words.new 0
        (rules_of (names_in fields.now) (names_in events.now) (names_in statuses.now) 0 s.now) }
{
    let rows = read_rows(s, fields, events, statuses, words)?;
    let rules = rows.value;
    let count = rules.count;
    let end = number::end_line(text::rest(s, rows.bytes), count);
    match end {
        Ok(()) => Ok(rules),
        Err(wrong) => Err(Wrong {
            fault: wrong.fault,
            line: count + wrong.line,
        }),
    }
}

// The rules at the start of `s`, and the words of their conditions; the names stand in `names`: first the fields, then the events, then the statuses.
// A refusal has its line, where the first rule would stand on line 0; then the lent words are cleared.
#[tactic(auto, using(crate::proofs::Whole::parted))]
pub fn read_rules(
    s: &[u8],
    names: &[u64],
    fields: usize,
    events: usize,
    statuses: usize,
    words: &mut [u64],
) -> Result<Rules, Wrong>
    requires { Ready (names_in names.now) words.old fields events statuses }
    ensures answer { result ≡ as_rules_read (rules_of (take fields (names_in names.now))
        (take events (drop fields (names_in names.now)))
        (take statuses (drop (fields + events) (names_in names.now))) 0 s.now) }
    ensures space { words.new ≡ words_space words.old (rules_of (take fields (names_in names.now))
        (take events (drop fields (names_in names.now)))
        (take statuses (drop (fields + events) (names_in names.now))) 0 s.now) }
{
    let field_names = name::part(names, 0, fields);
    let event_names = name::part(names, fields, events);
    let status_names = name::part(names, fields + events, statuses);
    let r = read_lines(s, field_names, event_names, status_names, words);
    let Err(_) = r else {
        return r;
    };
    cond_item::clear(words, 0);
    r
}
