// The lines that tell reasons, put into lent space. A reason is one number, (status x 1000 + line) x 10 + kind.
#![tactic(auto)]

ghost use Rattle.std.specs.Prelude.{◌≡◌, ◌++◌, ◌≤◌, ◌<◌, ◌+◌, ◌*◌, length};
ghost use Rattle.meaning.specs.Text.{joined};
ghost use Rattle.meaning.specs.Clerk.{kind_words, parent_told};
ghost use Rattle.meaning.specs.Limits.{status_limit};
ghost use Rattle.name.specs.Names.{name_of, spell_room};
ghost use Rattle.sheet_tables.specs.Heads.{Sized};
ghost use Rattle.theory.specs.Writing.Lent.{Wrote};
ghost use Rattle.clerk_reasons.specs.Lines.{kind_of, kept_of, over_of, words_from, rule_text, told_text, key_text, reason_text, reasons_text, Held};

use marks::Marks;
use name::Name;
use sheet_tables::Heads;

// `why=` and the sign of the change, by the mark of the status before.
fn put_key(out: &mut [u8], at: usize, mark: u8) -> usize
    requires { at + length (key_text mark) ≤ length out.old }
    ensures { Wrote at (key_text mark) out.old out.new result }
{
    if mark == marks::YES {
        return space::put_text(out, at, b"why=-");
    }
    space::put_text(out, at, b"why=+")
}

// The line up to the name of the status.
fn put_head(out: &mut [u8], at: usize, mark: u8, w: Name) -> usize
    requires { at + length (key_text mark ++ name_of w) ≤ length out.old }
    ensures { Wrote at (key_text mark ++ name_of w) out.old out.new result }
{
    let a = put_key(out, at, mark);
    name::spell(out, a, w)
}

// The words of a kind.
#[tactic(auto, unfolding(crate::specs::Lines::kind_of))]
fn words_of(kind: u32) -> &'static [u8]
    ensures { result.now ≡ kind_words (kind_of kind) }
{
    match kind {
        1 => b"held",
        2 => b"closed",
        3 => b"trigger not met",
        4 => b"home not open",
        5 => b"condition false",
        _ => b"condition unknown",
    }
}

// They are put into the space.
fn put_words(out: &mut [u8], at: usize, kind: u32) -> usize
    requires { at + length (kind_words (kind_of kind)) ≤ length out.old }
    ensures { Wrote at (kind_words (kind_of kind)) out.old out.new result }
{
    space::put_text(out, at, words_of(kind))
}

// What is told of a rule on line `line`: its kind, and its own words.
fn put_rule(out: &mut [u8], at: usize, line: usize, kind: u32, words: &[u8]) -> usize
    requires { at + length (rule_text line kind words.now) ≤ length out.old }
    ensures { Wrote at (rule_text line kind words.now) out.old out.new result }
{
    let a = space::put_text(out, at, b" line ");
    let b = space::put_number(out, a, line as u64, b' ');
    let c = put_words(out, b, kind);
    let d = space::put_byte(out, c, b':');
    space::put_text(out, d, words)
}

// What is told of a stage that was closed with its parent.
fn put_parent(out: &mut [u8], at: usize, parent: Name) -> usize
    requires { at + length (parent_told (name_of parent)) ≤ length out.old }
    ensures { Wrote at (parent_told (name_of parent)) out.old out.new result }
{
    let a = space::put_text(out, at, b" parent ");
    let b = name::spell(out, a, parent);
    space::put_text(out, b, b" closed\n")
}

// The name of a status.
pub fn name_of(heads: Heads, x: usize) -> Name
    requires { Sized heads × (x < status_limit) }
    ensures { result ≡ kept_of heads x }
{
    let names = heads.names;
    name::at(&names, heads.fields + heads.events + x)
}

// The name of the stage with a parent's code; none where there is no parent.
fn name_over(heads: Heads, parent: usize) -> Name
    requires { Sized heads × (parent ≤ status_limit) }
    ensures { result ≡ over_of heads parent }
{
    if parent == 0 {
        return name::no_name();
    }
    name_of(heads, parent - 1)
}

// The words of the rule whose line starts at `at`, behind the name of its status, which has `n` bytes.
fn words_from(sheet: &[u8], at: usize, n: usize) -> &[u8]
    requires { n ≤ spell_room }
    ensures { result.now ≡ words_from sheet.now at n }
{
    let here = text::rest(sheet, at);
    let end = desk_split::line_len(here);
    text::rest(&here[..end], 6 + n)
}

// What is told behind the name of the status: the parent that closed it, or a rule.
fn put_told(
    out: &mut [u8],
    at: usize,
    sheet: &[u8],
    starts: &[usize; 1000],
    heads: Heads,
    reason: u32,
) -> usize
    requires { Sized heads × (reason < status_limit * 10000) × (at + length (told_text sheet.now starts.now heads reason) ≤ length out.old) }
    ensures { Wrote at (told_text sheet.now starts.now heads reason) out.old out.new result }
{
    let x = (reason / 10000) as usize;
    if reason % 10 == 2 {
        let under = heads.under;
        return put_parent(out, at, name_over(heads, places::of_byte(under[x])));
    }
    let line = (reason % 10000 / 10) as usize;
    let n = name::name_len(name_of(heads, x));
    let words = words_from(sheet, starts[line], n);
    put_rule(out, at, line, reason % 10, words)
}

// The line of a reason.
fn put_reason(
    out: &mut [u8],
    at: usize,
    sheet: &[u8],
    starts: &[usize; 1000],
    heads: Heads,
    marks: Marks,
    reason: u32,
) -> usize
    requires { Sized heads
        × (reason < status_limit * 10000)
        × (at + length (reason_text sheet.now starts.now heads marks reason) ≤ length out.old) }
    ensures { Wrote at (reason_text sheet.now starts.now heads marks reason) out.old out.new result }
{
    let x = (reason / 10000) as usize;
    let a = put_head(out, at, marks[x], name_of(heads, x));
    put_told(out, a, sheet, starts, heads, reason)
}

// A line for each reason, at the start of `out`; `starts` tells where each line of the sheet starts.
fn put_lines(
    out: &mut [u8],
    sheet: &[u8],
    starts: &[usize; 1000],
    heads: Heads,
    marks: Marks,
    reasons: &[u32],
) -> usize
    requires { Sized heads × Held reasons.now × (length (joined (reason_text sheet.now starts.now heads marks) reasons.now) ≤ length out.old) }
    ensures { Wrote 0 (joined (reason_text sheet.now starts.now heads marks) reasons.now)
        out.old out.new result }
{
    let mut to = 0;
    for reason in reasons {
        to = put_reason(out, to, sheet, starts, heads, marks, *reason);
    }
    to
}

// A line for each reason, at the start of `out`. Where the lines of the sheet start is found once for all reasons, whose lines have three digits at most.
pub fn put_reasons(
    out: &mut [u8],
    sheet: &[u8],
    heads: Heads,
    marks: Marks,
    reasons: &[u32],
) -> usize
    requires { Sized heads × Held reasons.now × (length (reasons_text sheet.now heads marks reasons.now) ≤ length out.old) }
    ensures { Wrote 0 (reasons_text sheet.now heads marks reasons.now) out.old out.new result }
{
    let mut starts = [0usize; 1000];
    desk_split::line_starts(sheet, &mut starts);
    put_lines(out, sheet, &starts, heads, marks, reasons)
}
