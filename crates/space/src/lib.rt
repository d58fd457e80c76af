// Texts, numbers and lines put into lent space, and how long they are.
#![tactic(auto)]

ghost use Rattle.std.specs.Prelude.{◌≡◌, ℕ, List, [], ◌∷◌, ◌++◌, ◌≤◌, ◌<◌, ◌+◌, length};
ghost use Rattle.meaning.specs.Text.{text};
ghost use Rattle.meaning.specs.Number.{decimal, written_in};
ghost use Rattle.meaning.specs.Write.{line, mark};
ghost use Rattle.theory.specs.Writing.Lent.{Wrote};
ghost use Rattle.name.specs.Names.{name_of, spell_room};
ghost use Rattle.marks.specs.Codes.{is_yes};

use name::Name;

// What a line is made of.
pub trait Piece {
    // the text that it is written as
    ghost written: { Self → List ℕ };

    // Puts it at a place of `out`, and tells the place behind it.
    fn put(self, out: &mut [u8], at: usize) -> usize
        requires { at + length (written self) ≤ length out.old }
        ensures { Wrote at (written self) out.old out.new result };
}

impl Piece for Name {
    ghost written = { name_of };

    fn put(self, out: &mut [u8], at: usize) -> usize {
        name::spell(out, at, self)
    }
}

impl<'a> Piece for &'a [u8] {
    ghost written = { λ w. w.now };

    fn put(self, out: &mut [u8], at: usize) -> usize {
        put_text(out, at, self)
    }
}

impl Piece for u64 {
    ghost written = { decimal };

    #[tactic(auto, unfolding(meaning::specs::Number::decimal))]
    fn put(self, out: &mut [u8], at: usize) -> usize {
        put_digits(out, at, self, 10)
    }
}

// Puts a byte at a place of `out`, and tells the place behind it.
#[tactic(auto, using(theory::specs::Writing::Lent::byte_put))]
pub fn put_byte(out: &mut [u8], at: usize, b: u8) -> usize
    requires { at + 1 ≤ length out.old }
    ensures { Wrote at (b ∷ []) out.old out.new result }
{
    out[at] = b;
    at + 1
}

// Puts a text at a place of `out`, and tells the place behind it.
// Stays a loop over bytes: with `copy_from_slice` the archive for C would ask its callers for `memmove` too.
pub fn put_text(out: &mut [u8], at: usize, w: &[u8]) -> usize
    requires { at + length w.now ≤ length out.old }
    ensures { Wrote at w.now out.old out.new result }
{
    let mut to = at;
    for i in 0..w.len() {
        to = put_byte(out, to, w[i]);
    }
    to
}

// Puts a number of at most `left` digits: those before the last one first.
fn put_digits(out: &mut [u8], at: usize, n: u64, left: usize) -> usize
    requires { at + length (written_in left n) ≤ length out.old }
    ensures { Wrote at (written_in left n) out.old out.new result }
{
    if left == 0 {
        return at;
    }
    if n < 10 {
        return put_byte(out, at, 48 + n as u8);
    }
    let a = put_digits(out, at, n / 10, left - 1);
    put_byte(out, a, 48 + (n % 10) as u8)
}

// Puts a number and the byte that ends it at a place of `out`, and tells the place behind it.
#[tactic(auto, using(crate::proofs::Laws::numbering))]
pub fn put_number(out: &mut [u8], at: usize, n: u64, b: u8) -> usize
    requires { at + length (decimal n ++ (b ∷ [])) ≤ length out.old }
    ensures { Wrote at (decimal n ++ (b ∷ [])) out.old out.new result }
{
    let a = n.put(out, at);
    put_byte(out, a, b)
}

// How many digits a count has, which is one or two.
#[tactic(auto, using(crate::proofs::Laws::counting))]
pub fn count_len(n: usize) -> usize
    requires { n < 100 }
    ensures { (result ≡ length (decimal n)) × (result ≤ 2) }
{
    if n < 10 { 1 } else { 2 }
}

// Puts the line of a key and a value at the start of `out`.
#[tactic(auto, using(crate::proofs::Laws::lining))]
fn line_here<K: Piece, V: Piece>(out: &mut [u8], k: K, v: V) -> usize
    requires { 0 + length (line (K.written k) (V.written v)) ≤ length out.old }
    ensures { Wrote 0 (line (K.written k) (V.written v)) out.old out.new result }
{
    let a = k.put(out, 0);
    let b = put_byte(out, a, b'=');
    let c = v.put(out, b);
    put_byte(out, c, b'\n')
}

// Puts the line of a key and a value at a place of `out`, and tells the place behind it: the rest of the space from there on is lent on.
#[tactic(auto, using(theory::specs::Writing::Lent::part_back))]
pub fn put_line<K: Piece, V: Piece>(out: &mut [u8], at: usize, k: K, v: V) -> usize
    requires { at + length (line (K.written k) (V.written v)) ≤ length out.old }
    ensures { Wrote at (line (K.written k) (V.written v)) out.old out.new result }
{
    let n = line_here(&mut out[at..], k, v);
    at + n
}

// Puts the line of a name and a value at a place of `out`, and tells the place behind it: the rest of the space from there on is lent on.
pub fn line_at(out: &mut [u8], at: usize, w: Name, v: &[u8]) -> usize
    requires { at + length (line (name_of w) v.now) ≤ length out.old }
    ensures { Wrote at (line (name_of w) v.now) out.old out.new result }
{
    put_line(out, at, w, v)
}

// The word of a mark.
pub fn mark_word(m: u8) -> &'static [u8]
    ensures { result.now ≡ mark (is_yes m) }
{
    if m == marks::YES { b"yes" } else { b"no" }
}

// Puts the line of a status at a place of `out`, and tells the place behind it.
pub fn mark_at(out: &mut [u8], at: usize, w: Name, m: u8) -> usize
    requires { at + length (line (name_of w) (mark (is_yes m))) ≤ length out.old }
    ensures { Wrote at (line (name_of w) (mark (is_yes m))) out.old out.new result }
{
    line_at(out, at, w, mark_word(m))
}

// How long the line of a status is.
#[tactic(auto, using(crate::proofs::Laws::marking))]
pub fn mark_len(w: Name, m: u8) -> usize
    ensures { (result ≡ length (line (name_of w) (mark (is_yes m)))) × (result ≤ spell_room + 5) }
{
    name::name_len(w) + mark_word(m).len() + 2
}

// Puts the first line of a card, `case=` and the model's name, at the start of `out`.
pub fn put_case(out: &mut [u8], model: Name) -> usize
    requires { length (line (text "case") (name_of model)) ≤ length out.old }
    ensures { Wrote 0 (line (text "case") (name_of model)) out.old out.new result }
{
    put_line(out, 0, &b"case"[..], model)
}

// Puts the last line of a card, `end=` and its count, at a place of `out`.
pub fn put_end(out: &mut [u8], at: usize, n: usize) -> usize
    requires { at + length (line (text "end") (decimal n)) ≤ length out.old }
    ensures { Wrote at (line (text "end") (decimal n)) out.old out.new result }
{
    put_line(out, at, &b"end"[..], n as u64)
}

#[cfg(test)]
mod tests {
    use super::*;
    use std::test::Fail;

    // The line of a status stands as on a card, is as long as told, and what is around it stays.
    #[test]
    fn lines_of_a_status() -> Result<(), Fail> {
        let Ok(read) = name::name_piece(b"done=") else {
            return Err(Fail::new("no name"));
        };
        for (mark, want) in [
            (marks::YES, b"..done=yes\n........."),
            (marks::NO, b"..done=no\n.........."),
        ] {
            let mut out = [b'.'; 20];
            let long = mark_len(read.value, mark);
            if mark_at(&mut out, 2, read.value, mark) != 2 + long || out != *want {
                return Err(Fail::new("another line"));
            }
        }
        Ok(())
    }
}
