// The value of a condition in its flat form, as a mark's code.
#![tactic(auto)]

ghost use Rattle.std.specs.Prelude.{◌≡◌, ◌-◌, ◌≤◌, take, drop};
ghost use Rattle.meaning.specs.Kleene.{known₃};
ghost use Rattle.marks.specs.Codes.{code, mark_of};
ghost use Rattle.cond_value.specs.Machine.{raw_of, turned, joined_of, step_of, verdict_of};

use marks::{Marks, Values};

// The codes of marks, where they are reckoned with.
const NO: u64 = marks::NO as u64;

const UNKNOWN: u64 = marks::UNKNOWN as u64;

const YES: u64 = marks::YES as u64;

// Any code above that of yes counts as yes.
fn mark(m: u8) -> u64
    ensures { (result ≡ code (mark_of m)) × (result ≤ 2) }
{
    u64::from(m.min(marks::YES))
}

// What is known, as a mark.
fn known(holds: bool) -> u64
    ensures { (result ≡ code (known₃ holds)) × (result ≤ 2) }
{
    if holds { YES } else { NO }
}

// What a leaf's word says, before its negation. A comparison with `?` is unknown.
#[tactic(auto, unfolding(crate::specs::Machine::raw_of))]
fn raw(w: u64, values: &Values, marks: &Marks) -> u64
    ensures { (result ≡ raw_of values.now marks.now w) × (result ≤ 2) }
{
    let kind = w % 8;
    if kind < 4 {
        let x = (w / 8 % 32) as usize;
        return mark(marks[x]);
    }
    let f = (w / 8 % 16) as usize;
    let v = values[f];
    if v == 0 {
        return UNKNOWN;
    }
    if kind < 6 {
        known(v < w / 256)
    } else {
        known(v == w / 256)
    }
}

// Negated where the word is odd: unknown stays unknown.
#[tactic(auto, unfolding(crate::specs::Machine::turned))]
fn turn(w: u64, v: u64) -> u64
    requires { v ≤ 2 }
    ensures { (result ≡ turned w v) × (result ≤ 2) }
{
    if w % 2 == 0 { v } else { YES - v }
}

// Of two values an and (kind 0) is the lower, an or the higher.
#[tactic(auto, unfolding(crate::specs::Machine::joined_of))]
fn join(kind: u64, a: u64, b: u64) -> u64
    requires { (a ≤ 3) × (b ≤ 3) }
    ensures { (result ≡ joined_of kind a b) × (result ≤ 3) }
{
    if kind == 0 { a.min(b) } else { a.max(b) }
}

// One word. The stack is one number, two bits a value: a join takes two values off and puts one on, a leaf puts one on.
// Stays: the kind of a word is a number, since `verdict` takes any words: an enum would be a narrower parameter type.
#[tactic(auto, unfolding(crate::specs::Machine::step_of))]
fn step(w: u64, st: u64, values: &Values, marks: &Marks) -> u64
    ensures { result ≡ step_of values.now marks.now w st }
{
    let kind = w % 8;
    if kind < 2 {
        st / 16 * 4 + join(kind, st / 4 % 4, st % 4)
    } else {
        let v = raw(w, values, marks);
        st % 4611686018427387904 * 4 + turn(w, v)
    }
}

// The value of the words from `from` up to `to`, as a mark's code; of each field `values` has its value's code, of each status `marks` its mark.
#[tactic(auto, using(crate::proofs::Steps::run_more), unfolding(crate::specs::Machine::verdict_of, crate::specs::Machine::run))]
pub fn verdict(words: &[u64], from: usize, to: usize, values: &Values, marks: &Marks) -> u8
    ensures { result ≡ verdict_of values.now marks.now (take (to - from) (drop from words.now)) }
{
    let mut st = 0;
    for w in places::between(words, from, to) {
        st = step(*w, st, values, marks);
    }
    (st % 4) as u8
}
