// The outlook in names, put into lent space: for each status whether it is yes in every pattern, in none or in some, then a line for each pattern.
#![tactic(auto)]

ghost use Rattle.std.specs.Prelude.{◌≡◌, false, ◌≤◌, ◌+◌, length};
ghost use Rattle.meaning.specs.Limits.{status_limit};
ghost use Rattle.meaning.specs.Text.{joined};
ghost use Rattle.meaning.specs.Refusal.{taken};
ghost use Rattle.meaning.specs.Clerk.{pattern_line, prospects_told};
ghost use Rattle.name.specs.Names.{name_of, names_in};
ghost use Rattle.sheet_tables.specs.Heads.{Sized};
ghost use Rattle.theory.specs.Writing.Lent.{Wrote};
ghost use Rattle.clerk_prospects.specs.Lines.{common_of, word_line, word_lines, name_text, names_text, status_names_of};

use name::Name;
use sheet_tables::Heads;

// The bits that all patterns have, and those that some pattern has.
#[derive(Clone, Copy)]
struct Common {
    all: u32,
    some: u32,
}

// One pass over the patterns tells both of every status.
fn common_of(patterns: &[u32]) -> Common
    ensures { result ≡ common_of patterns.now }
{
    let mut all = u32::MAX;
    let mut some = 0;
    for p in patterns {
        all &= *p;
        some |= *p;
    }
    Common { all, some }
}

// The line of a status, told by the lowest bits.
fn put_word(out: &mut [u8], at: usize, w: Name, all: u32, some: u32) -> usize
    requires { at + length (word_line (name_of w) all some) ≤ length out.old }
    ensures { Wrote at (word_line (name_of w) all some) out.old out.new result }
{
    if all % 2 == 1 {
        return space::line_at(out, at, w, b"always");
    }
    if some % 2 == 1 {
        return space::line_at(out, at, w, b"open");
    }
    space::line_at(out, at, w, b"never")
}

// A line for each status, told by the bits from the lowest.
fn put_words(out: &mut [u8], names: &[u64], all: u32, some: u32) -> usize
    requires { length (word_lines (names_in names.now) all some) ≤ length out.old }
    ensures { Wrote 0 (word_lines (names_in names.now) all some) out.old out.new result }
{
    let mut to = 0;
    let mut a = all;
    let mut s = some;
    for i in 0..name::count(names) {
        to = put_word(out, to, name::at(names, i), a, s);
        a /= 2;
        s /= 2;
    }
    to
}

// A name of a pattern, where the lowest bit tells that its status is yes, and a space before it where another name stands there; otherwise nothing.
fn put_yes(out: &mut [u8], at: usize, behind: bool, w: Name, p: u32) -> usize
    requires { at + length (name_text behind (name_of w) p) ≤ length out.old }
    ensures { Wrote at (name_text behind (name_of w) p) out.old out.new result }
{
    if p % 2 != 1 {
        return at;
    }
    if !behind {
        return name::spell(out, at, w);
    }
    let a = space::put_byte(out, at, b' ');
    name::spell(out, a, w)
}

// The names of a pattern, told by its bits from the lowest.
fn put_names(out: &mut [u8], at: usize, names: &[u64], pattern: u32) -> usize
    requires { at + length (names_text false (names_in names.now) pattern) ≤ length out.old }
    ensures { Wrote at (names_text false (names_in names.now) pattern) out.old out.new result }
{
    let mut to = at;
    let mut behind = false;
    let mut p = pattern;
    for i in 0..name::count(names) {
        to = put_yes(out, to, behind, name::at(names, i), p);
        behind = behind | (p % 2 == 1);
        p /= 2;
    }
    to
}

// The line of a pattern.
fn put_pattern(out: &mut [u8], at: usize, names: &[u64], pattern: u32) -> usize
    requires { at + length (pattern_line (names_in names.now) pattern) ≤ length out.old }
    ensures { Wrote at (pattern_line (names_in names.now) pattern) out.old out.new result }
{
    let a = space::put_text(out, at, b"outlook=");
    let b = put_names(out, a, names, pattern);
    space::put_byte(out, b, b'\n')
}

// A line for each pattern.
fn put_patterns(out: &mut [u8], at: usize, names: &[u64], patterns: &[u32]) -> usize
    requires { at + length (joined (pattern_line (names_in names.now)) patterns.now) ≤ length out.old }
    ensures { Wrote at (joined (pattern_line (names_in names.now)) patterns.now) out.old out.new result }
{
    let mut to = at;
    for pattern in patterns {
        to = put_pattern(out, to, names, *pattern);
    }
    to
}

// All lines of the statuses with these names; a pattern has a bit for each.
fn put_lines(out: &mut [u8], names: &[u64], patterns: &[u32]) -> usize
    requires { (length (names_in names.now) ≤ status_limit) × (length (prospects_told (names_in names.now) (taken patterns.now)) ≤ length out.old) }
    ensures { Wrote 0 (prospects_told (names_in names.now) (taken patterns.now)) out.old out.new result }
{
    let common = common_of(patterns);
    let a = put_words(out, names, common.all, common.some);
    put_patterns(out, a, names, patterns)
}

// The outlook in names, at the start of `out`; the names are those of the statuses.
pub fn put_prospects(out: &mut [u8], heads: Heads, patterns: &[u32]) -> usize
    requires { Sized heads × (length (prospects_told (status_names_of heads) (taken patterns.now)) ≤ length out.old) }
    ensures { Wrote 0 (prospects_told (status_names_of heads) (taken patterns.now)) out.old out.new result }
{
    let names = heads.names;
    let first = heads.fields + heads.events;
    let count = heads.stages + heads.miles;
    put_lines(out, name::part(&names, first, count), patterns)
}
