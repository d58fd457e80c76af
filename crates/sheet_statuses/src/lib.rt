// The stage lines and the mile lines of a sheet, which are read alike.
#![tactic(auto)]

ghost use Rattle.std.specs.Prelude.{◌≡◌, ◌+◌, ◌-◌, ◌≤◌, leb, take, drop};
ghost use Rattle.meaning.specs.Limits.{field_limit, event_limit, status_limit};
ghost use Rattle.meaning.specs.Reading.{after};
ghost use Rattle.meaning.specs.ReadSheet.{under, stage_lines, mile_lines};
ghost use Rattle.theory.specs.Papers.Formed.{NoStages, NoMiles};
ghost use Rattle.name.specs.Names.{names_in};
ghost use Rattle.sheet_tables.specs.Heads.{heads_of};
ghost use Rattle.sheet_section.specs.Answers.{as_above_by, as_above, as_row, so_far_by};
ghost use Rattle.sheet_section.specs.Held.{Started, Reached};
ghost use Rattle.sheet_statuses.specs.Answers.{as_under, as_status, over, status, status_key, lines_of, Before};

use name::Name;
use reply::{Fault, ToldAt, Wrong};
use sheet_section::Above;
use sheet_tables::Heads;
use text::Taken;

// A status: its name, and under which stage it stands, as the tables have it.
#[derive(Clone, Copy)]
struct Status {
    name: Name,
    under: usize,
}

// Under which stage a status stands, as the tables have it: a space and one of the stages, which are the names from `from` up to `to`, or nothing.
fn stage_over(t: &[u8], names: &[u64], from: usize, to: usize) -> Result<Taken<usize>, Fault>
    ensures { result ≡ as_under t.now (over (take (to - from) (drop from (names_in names.now))) 0 t.now) }
{
    if !text::starts(t, b" ") {
        return Ok(Taken { value: 0, bytes: 0 });
    }
    let stage = name::known_name(text::rest(t, 1), names, from, to)?;
    Ok(Taken {
        value: stage.value + 1,
        bytes: stage.bytes + 1,
    })
}

// What ends a status's line: that, and LF.
fn under_end(t: &[u8], names: &[u64], from: usize, to: usize) -> Result<Taken<usize>, Fault>
    ensures { result ≡ as_under t.now (under (take (to - from) (drop from (names_in names.now))) 0 t.now) }
{
    let stage = stage_over(t, names, from, to)?;
    let end = text::due_text(text::rest(t, stage.bytes), b"\n", Fault::Line)?;
    Ok(Taken {
        value: stage.value,
        bytes: stage.bytes + end,
    })
}

// A status's line: its name and its stage, and how many bytes the line took; nothing where none stands.
fn status_row(t: &[u8], key: &[u8], heads: &Heads) -> Result<Option<Taken<Status>>, Fault>
    requires fields { heads.now.fields ≤ field_limit }
    requires events { heads.now.events ≤ event_limit }
    requires statuses { heads.now.stages + heads.now.miles ≤ status_limit }
    ensures { result ≡ as_row as_status key.now (leb status_limit (heads.now.stages + heads.now.miles))
        (status (take (heads.now.fields + heads.now.events + (heads.now.stages + heads.now.miles)) (names_in heads.now.names))
        (take heads.now.stages (drop (heads.now.fields + heads.now.events) (names_in heads.now.names)))) t.now }
{
    let from = heads.fields + heads.events;
    let to = from + heads.stages;
    let x = heads.stages + heads.miles;
    let full = limits::STATUSES <= x;
    let Some(name) = sheet_section::row_name(t, key, full, &heads.names, from + x)? else {
        return Ok(None);
    };
    let end = under_end(text::rest(t, name.bytes), &heads.names, from, to)?;
    Ok(Some(Taken {
        value: Status {
            name: name.value,
            under: end.value,
        },
        bytes: name.bytes + end.bytes,
    }))
}

// The stages, or the miles, with their key, behind what was read before.
fn read_statuses(s: &[u8], before: Above, key: &[u8], miles: bool) -> Result<Above, Wrong>
    requires key { key.now ≡ status_key miles }
    requires before { Reached (Before miles) s.now before }
    ensures { result ≡ as_above s.now (lines_of miles (heads_of before.heads) before.line (drop before.at s.now)) }
{
    // Stays: each section has its loop; said once it would take two closures, one that reads a row from the tables and one that puts it into them, no plainer.
    let mut above = before;
    'lines: loop {
        let line = above.line;
        let x = above.heads.stages + above.heads.miles;
        let n = above.heads.fields + above.heads.events + x;
        let row = status_row(text::rest(s, above.at), key, &above.heads);
        match row {
            Err(fault) => return Err(Wrong { fault, line }),
            Ok(None) => return Ok(above),
            Ok(Some(status)) => {
                name::put(&mut above.heads.names, n, status.value.name);
                above.heads.under[x] = status.value.under as u8;
                above.heads.stages += !miles as usize;
                above.heads.miles += miles as usize;
                above.line = line + 1;
                above.at += status.bytes;
            }
        }
    }
}

// The stage lines, from where the sheet is read to.
pub fn read_stages<W: ToldAt>(s: &[u8], before: Result<Above, W>) -> Result<Above, W>
    requires { Started NoStages s.now before }
    ensures { result ≡ as_above_by W.with_number s.now (after (so_far_by W.number W.line s.now before) stage_lines) }
{
    match before {
        Ok(above) => sheet_section::as_told(read_statuses(s, above, b"stage=", false)),
        Err(refusal) => Err(refusal),
    }
}

// The mile lines, from where the sheet is read to.
pub fn read_miles<W: ToldAt>(s: &[u8], before: Result<Above, W>) -> Result<Above, W>
    requires { Started NoMiles s.now before }
    ensures { result ≡ as_above_by W.with_number s.now (after (so_far_by W.number W.line s.now before) mile_lines) }
{
    match before {
        Ok(above) => sheet_section::as_told(read_statuses(s, above, b"mile=", true)),
        Err(refusal) => Err(refusal),
    }
}
