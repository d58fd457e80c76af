// Reading a leaf of a condition, a status or a comparison, into its word.
#![tactic(auto)]

ghost use Rattle.std.specs.Prelude.{◌≡◌, ◌≤◌, ◌<◌, length, drop};
ghost use Rattle.std.proofs.Math.Option.{none};
ghost use Rattle.meaning.specs.ReadCondition.{operator, named as named_leaf, read_leaf};
ghost use Rattle.meaning.specs.Limits.{field_limit, status_limit, highest};
ghost use Rattle.name.specs.Names.{kept_in, names_in};
ghost use Rattle.name.specs.Answers.{place_of, found_in};
ghost use Rattle.cond_value.specs.Flat.{bit, word, comparison_word};
ghost use Rattle.cond_leaf.specs.Answers.{operator_of, as_sign, as_leaf, comparison};

use name::Name;
use reply::Fault;
use text::Taken;

// The sign of a comparison.
#[derive(Clone, Copy)]
enum Sign {
    Below,
    AtMost,
    Equal,
    AtLeast,
    Above,
}

// How many leaves all conditions of a sheet may have together.
const LEAVES: usize = limits::LEAVES;

// The bit of a truth value.
pub fn bit_of(b: bool) -> u64
    ensures { (result ≡ bit b) × (result ≤ 1) }
{
    u64::from(b)
}

#[tactic(auto, unfolding(cond_value::specs::Flat::word))]
fn word_of(kind: u64, place: u64, number: u64) -> u64
    requires { (kind < 8) × (place < 32) × (number < 4294967296) }
    ensures { result ≡ word kind place number }
{
    kind + 8 * (place + 32 * number)
}

// Five signs are two kinds of words: below 4, equal 6, and one more where the leaf is negated.
#[tactic(auto, using(crate::proofs::Leaves::signed))]
fn comparison_word(neg: bool, field: u64, sign: Sign, number: u64) -> u64
    requires { (field < 32) × (number ≤ highest) }
    ensures { result ≡ comparison_word neg field (operator_of sign) number }
{
    match sign {
        Sign::Below => word_of(4 + bit_of(neg), field, number + 1),
        Sign::AtMost => word_of(4 + bit_of(neg), field, number + 2),
        Sign::Equal => word_of(6 + bit_of(neg), field, number + 1),
        Sign::AtLeast => word_of(4 + bit_of(!neg), field, number + 1),
        Sign::Above => word_of(4 + bit_of(!neg), field, number + 2),
    }
}

// The longest sign at the start of `s`.
#[tactic(auto, using(crate::proofs::Leaves::signing))]
fn sign_piece(s: &[u8]) -> Result<Taken<Sign>, Fault>
    ensures { result ≡ as_sign s.now (operator 0 s.now) }
{
    let (value, bytes) = match s {
        [] => return Err(Fault::Line),
        [b'<', b'=', ..] => (Sign::AtMost, 2),
        [b'>', b'=', ..] => (Sign::AtLeast, 2),
        [b'<', ..] => (Sign::Below, 1),
        [b'=', ..] => (Sign::Equal, 1),
        [b'>', ..] => (Sign::Above, 1),
        _ => return Err(Fault::Cond),
    };
    Ok(Taken { value, bytes })
}

// What stands behind the name of a field that ends at `at`: a sign and a number.
#[tactic(auto, using(crate::proofs::Leaves::comparing))]
fn comparison(s: &[u8], at: usize, field: usize, neg: bool) -> Result<Taken<u64>, Fault>
    requires { (at ≤ length s.now) × (field < 32) }
    ensures { result ≡ as_leaf neg s.now (comparison field 0 (drop at s.now)) }
{
    let sign = sign_piece(text::rest(s, at))?;
    let end = at + sign.bytes;
    let number = number::number_piece(text::rest(s, end))?;
    Ok(Taken {
        value: comparison_word(neg, field as u64, sign.value, number.value),
        bytes: end + number.bytes,
    })
}

// The leaf with the name `w`, which is no status.
#[tactic(auto, using(crate::proofs::Leaves::fielding))]
fn field_leaf(
    s: &[u8],
    w: Taken<Name>,
    fields: &[u64],
    leaves: usize,
    neg: bool,
) -> Result<Taken<u64>, Fault>
    requires { (w.bytes ≤ length s.now) × (length (names_in fields.now) ≤ field_limit) }
    ensures { result ≡ as_leaf neg s.now
        (named_leaf leaves none (place_of (found_in w.value (kept_in fields.now))) 0 (drop w.bytes s.now)) }
{
    let i = name::find(fields, 0, name::count(fields), w.value).ok_or(Fault::Name)?;
    if LEAVES <= leaves {
        return Err(Fault::Full);
    }
    comparison(s, w.bytes, i, neg)
}

// The leaf with the name `w`. Whether it is one too many is told behind its name.
#[tactic(auto, using(crate::proofs::Leaves::knowing))]
fn known_leaf(
    s: &[u8],
    w: Taken<Name>,
    statuses: &[u64],
    fields: &[u64],
    leaves: usize,
    neg: bool,
) -> Result<Taken<u64>, Fault>
    requires { (w.bytes ≤ length s.now) × (length (names_in statuses.now) ≤ status_limit) × (length (names_in fields.now) ≤ field_limit) }
    ensures { result ≡ as_leaf neg s.now
        (named_leaf leaves (place_of (found_in w.value (kept_in statuses.now))) (place_of (found_in w.value (kept_in fields.now))) 0
        (drop w.bytes s.now)) }
{
    let Some(i) = name::find(statuses, 0, name::count(statuses), w.value) else {
        return field_leaf(s, w, fields, leaves, neg);
    };
    if LEAVES <= leaves {
        return Err(Fault::Full);
    }
    Ok(Taken {
        value: word_of(2 + bit_of(neg), i as u64, 0),
        bytes: w.bytes,
    })
}

// The leaf at the start of `s`, as a word; `neg`: it is negated.
#[tactic(auto, using(crate::proofs::Leaves::leafing))]
pub fn read_leaf(
    s: &[u8],
    statuses: &[u64],
    fields: &[u64],
    leaves: usize,
    neg: bool,
) -> Result<Taken<u64>, Fault>
    requires { (length (names_in statuses.now) ≤ status_limit) × (length (names_in fields.now) ≤ field_limit) }
    ensures { result ≡ as_leaf neg s.now (read_leaf (names_in statuses.now) (names_in fields.now) leaves 0 s.now) }
{
    let w = name::name_piece(s)?;
    known_leaf(s, w, statuses, fields, leaves, neg)
}
