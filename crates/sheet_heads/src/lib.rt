// All that stands above the rules of a sheet: its sections, one after the other, each from where those before it were read to.
#![tactic(auto)]

ghost use Rattle.std.specs.Prelude.{◌≡◌};
ghost use Rattle.meaning.specs.ReadSheet.{heads};
ghost use Rattle.sheet_section.specs.Answers.{as_above};

use reply::Wrong;
use sheet_section::Above;

// All that stands above the rules at the start of a sheet, or the refusal.
pub fn read_heads(s: &[u8]) -> Result<Above, Wrong>
    ensures { result ≡ as_above s.now (heads 1 s.now) }
{
    let model = sheet_fields::read_model(s);
    let fields = sheet_fields::read_fields(s, model);
    let events = sheet_events::read_events(s, fields);
    let stages = sheet_statuses::read_stages(s, events);
    sheet_statuses::read_miles(s, stages)
}
