// Fixed texts: whether one stands at a place, one that is due, and what is left of a paper from a place on.
#![tactic(auto)]

ghost use Rattle.std.specs.Prelude.{◌≡◌, drop};
ghost use Rattle.meaning.specs.Text.{begins};
ghost use Rattle.meaning.specs.Reading.{due};
ghost use Rattle.text.specs.Pieces.{as_due, as_length_by};

use reply::{Fault, Told};

// A piece of a paper that was read: what it says, and how many bytes it took.
#[derive(Clone, Copy)]
pub struct Taken<T> {
    pub value: T,
    pub bytes: usize,
}

// Whether `s` begins with `k`.
pub fn starts(s: &[u8], k: &[u8]) -> bool
    ensures { result ≡ begins k.now s.now }
{
    s.starts_with(k)
}

// What is left of `s` from `at` on; nothing where `at` lies behind its end.
pub fn rest(s: &[u8], at: usize) -> &[u8]
    ensures { result.now ≡ drop at s.now }
{
    s.get(at..).unwrap_or(&[])
}

// The fixed text `k` that is due at the start of `s`, and how long it is; `ended` where nothing is left of `s`, `other` where another stands.
pub fn due_or<E: Copy>(s: &[u8], k: &[u8], ended: E, other: E) -> Result<usize, E>
    ensures { result ≡ as_due ended other s.now (due 0 k.now 0 s.now) }
{
    if s.is_empty() {
        return Err(ended);
    }
    if !starts(s, k) {
        return Err(other);
    }
    Ok(k.len())
}

// The fixed text `k` that is due at the start of `s`; where another stands, the fault `n`.
#[tactic(auto, using(crate::proofs::Laws::due_told))]
pub fn due_text<R: Told + Copy>(s: &[u8], k: &[u8], n: R) -> Result<usize, R>
    ensures { result ≡ as_length_by R.with_number s.now (due (R.number n) k.now 0 s.now) }
{
    due_or(s, k, R::from_fault(Fault::Line), n)
}
