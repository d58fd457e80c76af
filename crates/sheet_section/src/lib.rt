// A section of a sheet above its rules, whatever its rows are: what is answered, and the key and the name that a row begins with.
#![tactic(auto)]

ghost use Rattle.std.specs.Prelude.{◌≡◌, [], ◌∷◌, take, drop};
ghost use Rattle.meaning.specs.Text.{begins};
ghost use Rattle.name.specs.Names.{names_in};
ghost use Rattle.sheet_section.specs.Answers.{as_told, left_with, refusal, row_name, told};

use name::Name;
use reply::{Fault, Numbered, Told, ToldAt, Wrong};
use sheet_tables::Heads;
use text::Taken;

// What was read so far above the rules: the tables, and the line and the place come to.
#[derive(Clone, Copy)]
pub struct Above {
    pub line: usize,
    pub at: usize,
    pub heads: Heads,
}

// The refusal of a section: its number and line.
pub fn refused(number: u8, line: usize) -> Result<Above, Numbered>
    ensures { result ≡ refusal number line }
{
    Err(Numbered { number, line })
}

// What was read, with a refusal as the caller tells it.
pub fn as_told<W: ToldAt>(read: Result<Above, Wrong>) -> Result<Above, W>
    ensures { result ≡ as_told W.with_number read }
{
    match read {
        Ok(above) => Ok(above),
        Err(wrong) => Err(W::from_wrong(wrong)),
    }
}

// Whether the byte `b` stands at a place.
pub fn stands(s: &[u8], at: usize, b: u8) -> bool
    ensures { result ≡ begins (b ∷ []) (drop at s.now) }
{
    text::starts(text::rest(s, at), &[b])
}

// The key and the name of the next row of a section, and how many bytes they took; nothing where its key does not stand. The name is none of the first `n`.
// `full`: there is no room for a row.
pub fn row_name(
    t: &[u8],
    key: &[u8],
    full: bool,
    names: &[u64],
    n: usize,
) -> Result<Option<Taken<Name>>, Fault>
    ensures { result ≡ row_name key.now full (take n (names_in names.now)) t.now }
{
    if !text::starts(t, key) {
        return Ok(None);
    }
    if full {
        return Err(Fault::Full);
    }
    let name = name::new_name(text::rest(t, key.len()), names, n)?;
    Ok(Some(Taken {
        value: name.value,
        bytes: key.len() + name.bytes,
    }))
}

// The number with which a section is left; 0 where a row stands, or none does.
pub fn left_with<R: Told>(o: Result<Option<Taken<Name>>, R>) -> u8
    ensures { result ≡ left_with R.number o }
{
    match o {
        Ok(_) => 0,
        Err(refusal) => refusal.number_told(),
    }
}

// The answer of a section that was left with `number` at `at`.
pub fn answer(number: u8, line: usize, at: usize, heads: Heads) -> Result<Above, Numbered>
    ensures { result ≡ told number line at heads }
{
    if number != 0 {
        return refused(number, line);
    }
    Ok(Above { line, at, heads })
}
