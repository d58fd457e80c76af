// What a sheet begins with: the model and the fields.
#![tactic(auto)]

ghost use Rattle.std.specs.Prelude.{◌≡◌, leb, take, drop};
ghost use Rattle.meaning.specs.Text.{text};
ghost use Rattle.meaning.specs.Limits.{field_limit};
ghost use Rattle.meaning.specs.Reading.{after};
ghost use Rattle.meaning.specs.ReadSheet.{model_line, field_lines};
ghost use Rattle.theory.specs.Papers.Formed.{NoFields};
ghost use Rattle.name.specs.Names.{names_in, kept};
ghost use Rattle.sheet_tables.specs.Heads.{heads_of};
ghost use Rattle.sheet_section.specs.Answers.{as_above_by, as_above, as_row, so_far_by};
ghost use Rattle.sheet_section.specs.Held.{Started, Reached};
ghost use Rattle.sheet_fields.specs.Answers.{as_model, field};

use name::Name;
use reply::{Fault, ToldAt, Wrong};
use sheet_section::Above;
use text::Taken;

// The model's line: its name, and how many bytes the line took.
fn model_line(s: &[u8]) -> Result<Taken<Name>, Fault>
    ensures { result ≡ as_model s.now (model_line 0 s.now) }
{
    let key = text::due_text(s, b"model=", Fault::Line)?;
    let name = name::name_piece(text::rest(s, key))?;
    let at = key + name.bytes;
    let end = text::due_text(text::rest(s, at), b"\n", Fault::Line)?;
    Ok(Taken {
        value: name.value,
        bytes: at + end,
    })
}

// The model's line at the start of a sheet.
pub fn read_model(s: &[u8]) -> Result<Above, Wrong>
    ensures { result ≡ as_above s.now (model_line 1 s.now) }
{
    let model = model_line(s).map_err(|fault| Wrong { fault, line: 1 })?;
    let mut heads = sheet_tables::no_heads();
    heads.model = model.value;
    Ok(Above {
        line: 2,
        at: model.bytes,
        heads,
    })
}

// A field's line, where there are `n` fields so far: its name, and how many bytes the line took; nothing where none stands.
fn field_line(t: &[u8], names: &[u64], n: usize) -> Result<Option<Taken<Name>>, Fault>
    ensures { result ≡ as_row kept (text "field=") (leb field_limit n) (field (take n (names_in names.now))) t.now }
{
    let Some(name) = sheet_section::row_name(t, b"field=", limits::FIELDS <= n, names, n)? else {
        return Ok(None);
    };
    let end = text::due_text(text::rest(t, name.bytes), b"\n", Fault::Line)?;
    Ok(Some(Taken {
        value: name.value,
        bytes: name.bytes + end,
    }))
}

// Line after line of the fields, behind what was read before.
fn fields_behind(s: &[u8], before: Above) -> Result<Above, Wrong>
    requires { Reached NoFields s.now before }
    ensures { result ≡ as_above s.now (field_lines (heads_of before.heads) before.line (drop before.at s.now)) }
{
    // Stays: each section has its loop; said once it would take two closures, one that reads a row from the tables and one that puts it into them, no plainer.
    let mut above = before;
    'lines: loop {
        let n = above.heads.fields;
        let line = above.line;
        let row = field_line(text::rest(s, above.at), &above.heads.names, n);
        match row {
            Err(fault) => return Err(Wrong { fault, line }),
            Ok(None) => return Ok(above),
            Ok(Some(field)) => {
                name::put(&mut above.heads.names, n, field.value);
                above.heads.fields = n + 1;
                above.line = line + 1;
                above.at += field.bytes;
            }
        }
    }
}

// The fields, from where the sheet is read to.
pub fn read_fields<W: ToldAt>(s: &[u8], before: Result<Above, W>) -> Result<Above, W>
    requires { Started NoFields s.now before }
    ensures { result ≡ as_above_by W.with_number s.now (after (so_far_by W.number W.line s.now before) field_lines) }
{
    match before {
        Ok(above) => sheet_section::as_told(fields_behind(s, above)),
        Err(refusal) => Err(refusal),
    }
}

// Readers tell a fault. A refusal with another number is for callers outside, so that none but these calls what tells it.
#[cfg(test)]
mod tests {
    use super::*;

    #[test]
    fn any_refusal_is_handed_on(rt: HostRuntime) {
        let sheet = b"model=kin\nfield=age\n";
        assert!(rt; sheet_section::stands(sheet, 9, b'\n'));
        assert!(rt; !sheet_section::stands(sheet, 20, b'\n'));
        let Err(handed) = read_fields(sheet, sheet_section::refused(200, 7)) else {
            panic!(rt; "a refusal was taken");
        };
        assert_eq!(rt; handed.number, 200);
        assert_eq!(rt; handed.line, 7);
        let Ok(model) = read_model(sheet) else {
            panic!(rt; "the model was refused");
        };
        let row = field_line(b"field=age\n", &model.heads.names, 0);
        assert_eq!(rt; sheet_section::left_with(row.map(|_line| None)), 0);
        let wrong = field_line(b"field=9\n", &model.heads.names, 0);
        assert_eq!(rt; sheet_section::left_with(wrong.map(|_line| None)), 3);
        assert!(rt; sheet_section::answer(0, 2, 10, model.heads).is_ok());
        assert!(rt; sheet_section::answer(3, 2, 10, model.heads).is_err());
    }
}
