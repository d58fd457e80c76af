// The lines that the desk program prints, put into lent space.
#![tactic(auto)]

ghost use Rattle.std.specs.Prelude.{◌≤◌, ◌+◌, length};
ghost use Rattle.meaning.specs.Desk.{refusal_text};
ghost use Rattle.name.specs.Names.{name_of};
ghost use Rattle.theory.specs.Writing.Lent.{Wrote};
ghost use Rattle.desk_print.specs.Lines.{start_text, pattern_text, many_text};

use name::Name;

// The line of a refusal, at the start of `out`.
#[tactic(auto, using(crate::proofs::Laws::refusing))]
pub fn put_refusal(out: &mut [u8], number: u8, paper: u8, line: usize) -> usize
    requires { length (refusal_text number paper line) ≤ length out.old }
    ensures { Wrote 0 (refusal_text number paper line) out.old out.new result }
{
    let a = space::put_text(out, 0, b"refused=");
    let b = space::put_number(out, a, number as u64, b' ');
    let c = space::put_number(out, b, paper as u64, b' ');
    space::put_number(out, c, line as u64, b'\n')
}

// The line of a task, where the lowest bit of `tasks` tells that it was started; otherwise nothing.
pub fn put_start(out: &mut [u8], at: usize, w: Name, tasks: u32) -> usize
    requires { at + length (start_text (name_of w) tasks) ≤ length out.old }
    ensures { Wrote at (start_text (name_of w) tasks) out.old out.new result }
{
    if tasks % 2 != 1 {
        return at;
    }
    space::put_line(out, at, &b"start"[..], w)
}

// The line of a pattern.
pub fn put_pattern(out: &mut [u8], at: usize, p: u32) -> usize
    requires { at + length (pattern_text p) ≤ length out.old }
    ensures { Wrote at (pattern_text p) out.old out.new result }
{
    space::put_line(out, at, &b"outlook"[..], p as u64)
}

// The line where the outlook is refused.
pub fn put_many(out: &mut [u8], at: usize) -> usize
    requires { at + length many_text ≤ length out.old }
    ensures { Wrote at many_text out.old out.new result }
{
    space::put_line(out, at, &b"outlook"[..], &b"refused"[..])
}
