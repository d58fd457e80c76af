// Names: how one is kept, read and spelt, tables of names, and names looked up there. How a name is packed is known in this crate alone.
#![tactic(auto)]

ghost use Rattle.std.specs.Prelude.{◌≡◌, [], map, true, ◌+◌, ◌-◌, ◌≤◌, ◌<◌, length, take, drop};
ghost use Rattle.meaning.specs.Text.{run, is_in};
ghost use Rattle.meaning.specs.Limits.{name_bytes};
ghost use Rattle.meaning.specs.Name.{letter, name_byte, reserved, name, new_name, due_name, known};
ghost use Rattle.theory.specs.Writing.Lent.{Wrote};
ghost use Rattle.limits.specs.Sizes.{name_room};
ghost use Rattle.text.specs.Pieces.{as_length};
ghost use Rattle.name.specs.Packed.{base, symbol, byte_of, packed};
ghost use Rattle.name.specs.Names.{kept, name_of, spell_room, kept_in, names_in, name_at, table_of, put_in, part_of};
ghost use Rattle.name.specs.Answers.{as_name, as_known, name_fault, known_fault, found_in};

use reply::{Fault, Told};
use text::Taken;

// A name as it is kept: its symbols packed into one number.
#[derive(Clone, Copy, PartialEq, Eq)]
pub struct Name {
    pub word: u64,
}

// The names of a sheet, one behind another, and blank ones behind the last.
pub type Table = [u64; limits::NAMES];

// The most bytes that a kept name has, whatever its number: one more than a name may have.
const PLACES: usize = limits::NAME_BYTES + 1;

// How many symbols there are, with one for none.
const BASE: u64 = 38;

// The reserved words, packed: the letters a to z are the symbols 1 to 26.
const ON: u64 = 15 + BASE * 14;

const IF: u64 = 9 + BASE * 6;

const OR: u64 = 15 + BASE * 18;

const AND: u64 = 1 + BASE * (14 + BASE * 4);

const NOT: u64 = 14 + BASE * (15 + BASE * 20);

const END: u64 = 5 + BASE * (14 + BASE * 4);

fn is_letter(b: u8) -> bool
    ensures { result ≡ letter b }
{
    b.is_ascii_lowercase()
}

fn is_name_byte(b: u8) -> bool
    ensures { result ≡ name_byte b }
{
    is_letter(b) || matches!(b, b'0'..=b'9')
}

// How many bytes the longest run of name bytes at the start of `s` has.
fn name_run(s: &[u8]) -> usize
    ensures { result ≡ run name_byte s.now }
{
    for (i, b) in s.iter().enumerate() {
        if !is_name_byte(*b) {
            return i;
        }
    }
    s.len()
}

// The symbol of a name byte.
fn symbol_of(b: u8) -> u64
    requires { name_byte b ≡ true }
    ensures { (result ≡ symbol b) × (result < base) }
{
    match b {
        b'a'.. => u64::from(b - 96),
        _ => u64::from(b - 21),
    }
}

// The byte of a symbol.
fn symbol_byte(d: u64) -> u8
    ensures { result ≡ byte_of d }
{
    match d {
        1..=26 => (d + 96) as u8,
        27..=36 => (d + 21) as u8,
        _ => 0,
    }
}

// The first `n` bytes of `s`, its longest run of name bytes, packed: from the last one backwards, so that the first is the lowest.
fn pack(s: &[u8], n: usize) -> u64
    requires { (n ≡ run name_byte s.now) × (n ≤ name_bytes) }
    ensures { result ≡ packed (take n s.now) }
{
    let mut w = 0;
    for i in (0..n).rev() {
        w = symbol_of(s[i]) + BASE * w;
    }
    w
}

// Whether the packed name is a reserved word.
fn is_reserved(w: u64) -> bool
    ensures { result ≡ is_in w (map packed reserved) }
{
    [ON, IF, OR, AND, NOT, END].contains(&w)
}

// The name at the start of `s`.
pub fn name_piece(s: &[u8]) -> Result<Taken<Name>, Fault>
    ensures { result ≡ as_name s.now (name 0 s.now) }
{
    let first = s.first().ok_or(Fault::Line)?;
    if !is_letter(*first) {
        return Err(Fault::Name);
    }
    let bytes = name_run(s);
    if limits::NAME_BYTES < bytes {
        return Err(Fault::Name);
    }
    let word = pack(s, bytes);
    if is_reserved(word) {
        return Err(Fault::Name);
    }
    let value = Name { word };
    Ok(Taken { value, bytes })
}

// No name, as it is kept.
pub fn no_name() -> Name
    ensures { result ≡ kept [] }
{
    Name { word: 0 }
}

// A table of no names.
pub fn no_names() -> Table
    ensures { result ≡ table_of [] }
{
    [0; limits::NAMES]
}

// How many names a table or a part of one has, blank ones too.
pub fn count(names: &[u64]) -> usize
    ensures { result ≡ length (names_in names.now) }
{
    names.len()
}

// The name at a place of the table; no name behind the last.
pub fn at(names: &[u64], i: usize) -> Name
    ensures { result ≡ name_at names.now i }
{
    if names.len() <= i {
        return no_name();
    }
    Name { word: names[i] }
}

// Puts a name at a place of the table.
pub fn put(names: &mut Table, i: usize, w: Name)
    requires { i < name_room }
    ensures { names.new ≡ put_in names.old i w }
{
    names[i] = w.word;
}

// The part of the table that has `n` names from the place `from` on.
pub fn part(names: &[u64], from: usize, n: usize) -> &[u64]
    requires { from + n ≤ length (names_in names.now) }
    ensures { result.now ≡ part_of names.now from n }
{
    &names[from..from + n]
}

// The first place of `w` in `names` from `from` up to `to`, counted from `from`.
pub fn find(names: &[u64], from: usize, to: usize, w: Name) -> Option<usize>
    ensures { result ≡ found_in w (take (to - from) (drop from (kept_in names.now))) }
{
    for i in from..to.min(names.len()) {
        if names[i] == w.word {
            return Some(i - from);
        }
    }
    None
}

// The name at the start of `s`, as its place in the table `names` from `from` up to `to`.
pub fn known_name(s: &[u8], names: &[u64], from: usize, to: usize) -> Result<Taken<usize>, Fault>
    ensures { result ≡ as_known s.now (known (take (to - from) (drop from (names_in names.now))) 0 s.now) }
{
    let name = name_piece(s)?;
    let value = find(names, from, to, name.value).ok_or(Fault::Name)?;
    Ok(Taken {
        value,
        bytes: name.bytes,
    })
}

// The name at the start of `s`, where it is none of the first `n` of the table.
pub fn new_name(s: &[u8], names: &[u64], n: usize) -> Result<Taken<Name>, Fault>
    ensures { result ≡ as_name s.now (new_name (take n (names_in names.now)) 0 s.now) }
{
    let name = name_piece(s)?;
    if find(names, 0, n, name.value).is_some() {
        return Err(Fault::Name);
    }
    Ok(name)
}

// The name at the start of `s`, where the name `due` must stand.
pub fn due_name(s: &[u8], due: Name) -> Result<usize, Fault>
    ensures { result ≡ as_length s.now (due_name (name_of due) 0 s.now) }
{
    let name = name_piece(s)?;
    if name.value != due {
        return Err(Fault::Name);
    }
    Ok(name.bytes)
}

// The number of a refused name, and 0 where one stands.
pub fn name_fault<R: Told>(p: Result<Taken<Name>, R>) -> u8
    ensures { result ≡ name_fault R.number p }
{
    match p {
        Ok(_name) => 0,
        Err(refusal) => refusal.number_told(),
    }
}

// The number of a name that is not known, and 0 where one is.
pub fn known_fault<R: Told>(p: Result<Taken<usize>, R>) -> u8
    ensures { result ≡ known_fault R.number p }
{
    match p {
        Ok(_place) => 0,
        Err(refusal) => refusal.number_told(),
    }
}

// How many bytes a kept name has.
pub fn name_len(w: Name) -> usize
    ensures { (result ≡ length (name_of w)) × (result ≤ spell_room) }
{
    let mut v = w.word;
    for n in 0..PLACES {
        if v == 0 {
            return n;
        }
        v /= BASE;
    }
    PLACES
}

// Puts the bytes of a kept name at a place of `out`, and tells the place behind them.
pub fn spell(out: &mut [u8], at: usize, w: Name) -> usize
    requires { at + length (name_of w) ≤ length out.old }
    ensures { Wrote at (name_of w) out.old out.new result }
{
    let mut to = at;
    let mut v = w.word;
    for _n in 0..PLACES {
        if v == 0 {
            return to;
        }
        out[to] = symbol_byte(v % BASE);
        to += 1;
        v /= BASE;
    }
    to
}

// Readers hand a fault on as it is. Its number is for callers outside, so that none but these calls what tells it.
#[cfg(test)]
mod tests {
    use super::*;

    #[test]
    fn numbers_of_names(rt: HostRuntime) {
        let kin = name_piece(b"kin");
        let mut names = no_names();
        if let Ok(name) = kin {
            put(&mut names, 0, name.value);
        }
        assert_eq!(rt; name_fault(kin), 0);
        assert_eq!(rt; name_fault(name_piece(b"")), 2);
        assert_eq!(rt; name_fault(name_piece(b"9kin")), 3);
        assert_eq!(rt; known_fault(known_name(b"kin", &names, 0, 1)), 0);
        assert_eq!(rt; known_fault(known_name(b"sea", &names, 0, 1)), 3);
    }
}
