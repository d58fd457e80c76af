// Where the papers end in a program's input, and where the lines of a paper start.
#![tactic(auto)]

ghost use Rattle.std.specs.Prelude.{◌≡◌, ◌==◌, position, true, ◌&&◌, ◌++◌, ◌-◌, length, take};
ghost use Rattle.meaning.specs.Text.{text, begins};
ghost use Rattle.meaning.specs.Desk.{line_length, paper_length};
ghost use Rattle.desk_split.specs.Lines.{starts_from};

// Where the first LF stands.
fn first_lf(s: &[u8]) -> Option<usize>
    ensures { result ≡ position (λ x. x == 10) s.now }
{
    s.iter().position(|b| *b == b'\n')
}

// How long the first line is, with its LF.
#[tactic(auto, using(crate::proofs::Laws::lining))]
pub fn line_len(s: &[u8]) -> usize
    ensures { result ≡ line_length s.now }
{
    match first_lf(s) {
        Some(i) => i + 1,
        None => s.len(),
    }
}

// Whether the last line of a paper stands at the start of `s`, where `starts` tells that a line starts there.
fn last_line(starts: bool, s: &[u8]) -> bool
    ensures { result ≡ (starts && begins (text "end=") s.now) }
{
    starts && text::starts(s, b"end=")
}

// How long the first paper is: up to and with the first line that begins `end=`, or all.
#[tactic(auto, using(crate::proofs::Laws::passing))]
pub fn paper_len(s: &[u8]) -> usize
    ensures { result ≡ paper_length true s.now }
{
    let mut starts = true;
    for (i, b) in s.iter().enumerate() {
        let here = text::rest(s, i);
        if last_line(starts, here) {
            return i + line_len(here);
        }
        starts = *b == b'\n';
    }
    s.len()
}

// Where the lines of a text start: each line has the place of its number, from 1. There is no line 0, and place 0 stays as it is.
#[tactic(auto, using(crate::proofs::Laws::starting))]
pub fn line_starts(s: &[u8], starts: &mut [usize])
    ensures { starts.new ≡ take 1 starts.old ++ starts_from (length starts.old - 1) 0 s.now }
{
    let mut at = 0;
    for l in 1..starts.len() {
        starts[l] = at;
        at += line_len(text::rest(s, at));
    }
}
