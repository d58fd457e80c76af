// The steps along a condition: a leaf's word and the joining words in the lent array, what was read told from further back, a group's end.
#![tactic(auto)]

ghost use Rattle.std.specs.Prelude.{◌≡◌, ◌+◌, ◌≤◌, ◌<◌, length};
ghost use Rattle.std.proofs.lemmas.List.Edits.{sets};
ghost use Rattle.meaning.specs.ReadCondition.{read_leaf};
ghost use Rattle.name.specs.Names.{names_in};
ghost use Rattle.cond_value.specs.Flat.{bit, join};
ghost use Rattle.cond_item.specs.Answers.{as_item, item_space, cleared, Ready, Within, further, closed_by};

use reply::{Fault, Told};

// How far a condition was read: its bytes, and the words and leaves that there are behind it.
#[derive(Clone, Copy)]
pub struct Place {
    pub bytes: usize,
    pub top: usize,
    pub leaves: usize,
}

// The leaf at the start of `s` as an item: its word is stored.
#[tactic(auto, using(crate::proofs::Steps::storing))]
pub fn leaf_item(
    s: &[u8],
    statuses: &[u64],
    fields: &[u64],
    words: &mut [u64],
    top: usize,
    leaves: usize,
    neg: bool,
) -> Result<Place, Fault>
    requires { Ready (names_in statuses.now) (names_in fields.now) words.old top leaves }
    ensures { (result ≡ as_item neg s.now top leaves
        (read_leaf (names_in statuses.now) (names_in fields.now) leaves 0 s.now))
        × (words.new ≡ item_space neg words.old top
        (read_leaf (names_in statuses.now) (names_in fields.now) leaves 0 s.now)) }
{
    let leaf = cond_leaf::read_leaf(s, statuses, fields, leaves, neg)?;
    words[top] = leaf.value;
    Ok(Place {
        bytes: leaf.bytes,
        top: top + 1,
        leaves: leaves + 1,
    })
}

// The joining word, 1 for an or, is stored where something stands before in the list. The next place for a word.
#[tactic(auto, using(crate::proofs::Steps::joining))]
pub fn join_word(words: &mut [u64], top: usize, joined: bool, or: bool) -> usize
    requires { top < length words.old }
    ensures { (words.new ≡ sets words.old top (join joined (bit or))) × (result ≡ top + length (join joined (bit or))) }
{
    if joined {
        words[top] = cond_leaf::bit_of(or);
        top + 1
    } else {
        top
    }
}

// What was read behind the first `n` bytes of `s`, told from the start of `s`. A refusal is handed on, whatever it is told by.
#[tactic(auto, using(crate::proofs::Steps::shifting))]
pub fn behind<E>(s: &[u8], n: usize, r: Result<Place, E>) -> Result<Place, E>
    requires { Within s.now n r }
    ensures { result ≡ further n r }
{
    let q = r?;
    Ok(Place {
        bytes: n + q.bytes,
        ..q
    })
}

// The group whose parenthesis is the first byte of `s`, where its condition was read behind that.
#[tactic(auto, using(crate::proofs::Steps::closes))]
pub fn closed<R: Told + Copy>(s: &[u8], r: Result<Place, R>) -> Result<Place, R>
    requires { Within s.now 1 r }
    ensures { result ≡ closed_by R.with_number s.now r }
{
    let q = r?;
    let end = 1 + q.bytes;
    let (ended, other) = (R::from_fault(Fault::Line), R::from_fault(Fault::Cond));
    let close = text::due_or(text::rest(s, end), b")", ended, other)?;
    Ok(Place {
        bytes: end + close,
        ..q
    })
}

// The words from `top` on are cleared.
#[tactic(auto, using(crate::proofs::Steps::cleared_all))]
pub fn clear(words: &mut [u64], top: usize)
    requires { top ≤ length words.old }
    ensures { words.new ≡ cleared words.old top }
{
    words[top..].fill(0);
}
