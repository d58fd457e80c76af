// Reading a condition into its flat form: words in postfix order in a lent array.
#![tactic(auto)]

ghost use Rattle.std.specs.Prelude.{◌≡◌, drop};
ghost use Rattle.meaning.specs.Text.{begins};
ghost use Rattle.meaning.specs.ReadCondition.{condition};
ghost use Rattle.name.specs.Names.{names_in};
ghost use Rattle.cond_item.specs.Answers.{Ready};
ghost use Rattle.cond_read.specs.Answers.{as_condition, stored};
ghost use Rattle.cond_read.specs.Parts.{items, and_lists, conditions, Gives};

use cond_item::Place;
use reply::Fault;

// What stands around a part: how many more nots and groups may, and whether those that do negate it.
#[derive(Clone, Copy)]
struct Around {
    nest: usize,
    neg: bool,
}

// Whether `k` stands in `s` at `at`.
#[tactic(auto, using(crate::proofs::Listed::stands_at))]
fn stands_at(s: &[u8], at: usize, k: &[u8]) -> bool
    ensures { result ≡ begins k.now (drop at s.now) }
{
    text::starts(text::rest(s, at), k)
}

// A condition: and-lists joined by ` or `, behind each of which but the first an or is stored.
// Stays: a reader of its own beside `and_list`. One for both would be no plainer: it asks at three places which of the two lists it reads (its members, its
// text, its word), and it would have an eighth parameter.
#[cycle(readers)]
fn condition(
    s: &[u8],
    statuses: &[u64],
    fields: &[u64],
    words: &mut [u64],
    top: usize,
    leaves: usize,
    around: Around,
) -> Result<Place, Fault>
    requires { Ready (names_in statuses.now) (names_in fields.now) words.old top leaves }
    ensures { Gives (conditions (names_in statuses.now) (names_in fields.now) around.neg around.nest)
        s.now top leaves result words.old words.new }
{
    let mut place = Place {
        bytes: 0,
        top,
        leaves,
    };
    let mut joined = false;
    loop {
        let t = text::rest(s, place.bytes);
        let q = and_list(t, statuses, fields, words, place.top, place.leaves, around)?;
        place = Place {
            bytes: place.bytes + q.bytes,
            top: cond_item::join_word(words, q.top, joined, !around.neg),
            leaves: q.leaves,
        };
        if !stands_at(s, place.bytes, b" or ") {
            return Ok(place);
        }
        place.bytes += 4;
        joined = true;
    }
}

// An and-list: items joined by ` and `, likewise.
#[cycle(readers)]
fn and_list(
    s: &[u8],
    statuses: &[u64],
    fields: &[u64],
    words: &mut [u64],
    top: usize,
    leaves: usize,
    around: Around,
) -> Result<Place, Fault>
    requires { Ready (names_in statuses.now) (names_in fields.now) words.old top leaves }
    ensures { Gives (and_lists (names_in statuses.now) (names_in fields.now) around.neg around.nest)
        s.now top leaves result words.old words.new }
{
    let mut place = Place {
        bytes: 0,
        top,
        leaves,
    };
    let mut joined = false;
    loop {
        let t = text::rest(s, place.bytes);
        let q = item(t, statuses, fields, words, place.top, place.leaves, around)?;
        place = Place {
            bytes: place.bytes + q.bytes,
            top: cond_item::join_word(words, q.top, joined, around.neg),
            leaves: q.leaves,
        };
        if !stands_at(s, place.bytes, b" and ") {
            return Ok(place);
        }
        place.bytes += 5;
        joined = true;
    }
}

// An item: `not ` and an item, a group, or a leaf.
#[cycle(readers)]
fn item(
    s: &[u8],
    statuses: &[u64],
    fields: &[u64],
    words: &mut [u64],
    top: usize,
    leaves: usize,
    around: Around,
) -> Result<Place, Fault>
    requires { Ready (names_in statuses.now) (names_in fields.now) words.old top leaves }
    ensures { Gives (items (names_in statuses.now) (names_in fields.now) around.neg around.nest)
        s.now top leaves result words.old words.new }
{
    if s.is_empty() {
        return Err(Fault::Line);
    }
    if text::starts(s, b"not ") {
        if around.nest == 0 {
            return Err(Fault::Cond);
        }
        let t = text::rest(s, 4);
        let nest = around.nest - 1;
        let neg = !around.neg;
        let inside = Around { nest, neg };
        let r = item(t, statuses, fields, words, top, leaves, inside);
        return cond_item::behind(s, 4, r);
    }
    if !text::starts(s, b"(") {
        return cond_item::leaf_item(s, statuses, fields, words, top, leaves, around.neg);
    }
    if around.nest == 0 {
        return Err(Fault::Cond);
    }
    let t = text::rest(s, 1);
    let nest = around.nest - 1;
    let inside = Around { nest, ..around };
    let r = condition(t, statuses, fields, words, top, leaves, inside);
    cond_item::closed(s, r)
}

// The condition at the start of `s`, whose names are those of the tables, behind `top` words and `leaves` leaves: its words are stored, and cleared where it
// is refused.
pub fn read_condition(
    s: &[u8],
    statuses: &[u64],
    fields: &[u64],
    words: &mut [u64],
    top: usize,
    leaves: usize,
) -> Result<Place, Fault>
    requires { Ready (names_in statuses.now) (names_in fields.now) words.old top leaves }
    ensures answer { result ≡ as_condition s.now top leaves
        (condition (names_in statuses.now) (names_in fields.now) leaves 0 s.now) }
    ensures space { words.new ≡ stored words.old top
        (condition (names_in statuses.now) (names_in fields.now) leaves 0 s.now) }
{
    let around = Around {
        nest: limits::NESTING,
        neg: false,
    };
    let r = condition(s, statuses, fields, words, top, leaves, around);
    if r.is_err() {
        cond_item::clear(words, top);
    }
    r
}
