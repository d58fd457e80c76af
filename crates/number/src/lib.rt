// Numbers and values. A number is told by its place on the scale: the number and 1000000000 more. A value is 0 for `?`, and otherwise its place and 1 more.
#![tactic(auto)]

ghost use Rattle.std.specs.Prelude.{◌≡◌, ◌+◌, eqb};
ghost use Rattle.meaning.specs.Reading.{closed};
ghost use Rattle.meaning.specs.Name.{digit};
ghost use Rattle.meaning.specs.Limits.{middle};
ghost use Rattle.meaning.specs.Number.{number, entry, end_line};
ghost use Rattle.number.specs.Answers.{as_number, as_entry, as_end};
ghost use Rattle.number.specs.Digits.{needless_zero, amount_run, digits_run};

use reply::{Fault, Wrong};
use text::Taken;

fn is_digit(b: u8) -> bool
    ensures { result ≡ digit b }
{
    b.is_ascii_digit()
}

// Whether `s` starts with a zero and another digit behind it.
fn needless(s: &[u8]) -> bool
    ensures { result ≡ needless_zero s.now }
{
    if s.len() < 2 {
        return false;
    }
    if s[0] != b'0' {
        return false;
    }
    is_digit(s[1])
}

// The longest run of digits: its value and its length. It is left as soon as the value is over the range, so no run is too long for it.
fn amount_run(s: &[u8]) -> Option<Taken<u64>>
    ensures { result ≡ amount_run s.now }
{
    let mut value: u64 = 0;
    for (i, b) in s.iter().enumerate() {
        if !is_digit(*b) {
            return Some(Taken { value, bytes: i });
        }
        value = value * 10 + u64::from(*b - b'0');
        if limits::MIDDLE < value {
            return None;
        }
    }
    Some(Taken {
        value,
        bytes: s.len(),
    })
}

// The longest run of digits at the start of `s`, where it has at least one and no needless zero.
fn digits_run(s: &[u8]) -> Option<Taken<u64>>
    ensures { result ≡ digits_run s.now }
{
    if needless(s) {
        return None;
    }
    let run = amount_run(s)?;
    if run.bytes == 0 {
        return None;
    }
    Some(run)
}

// The number at the start of `s`: its place, and how many bytes it took.
pub fn number_piece(s: &[u8]) -> Result<Taken<u64>, Fault>
    ensures { result ≡ as_number s.now (number 0 s.now) }
{
    if s.len() == 0 {
        return Err(Fault::Line);
    }
    if s[0] == b'-' {
        let run = digits_run(&s[1..]).ok_or(Fault::Number)?;
        if run.value == 0 {
            return Err(Fault::Number);
        }
        return Ok(Taken {
            value: limits::MIDDLE - run.value,
            bytes: run.bytes + 1,
        });
    }
    let run = digits_run(s).ok_or(Fault::Number)?;
    Ok(Taken {
        value: limits::MIDDLE + run.value,
        bytes: run.bytes,
    })
}

// The value at the start of `s`: a number or `?`.
pub fn entry_piece(s: &[u8]) -> Result<Taken<u64>, Fault>
    ensures { result ≡ as_entry s.now (entry 0 s.now) }
{
    if text::starts(s, b"?") {
        return Ok(Taken { value: 0, bytes: 1 });
    }
    let number = number_piece(s)?;
    Ok(Taken {
        value: number.value + 1,
        bytes: number.bytes,
    })
}

// Whether the number at the place `v` is the count. No sum is made, which a large count would not fit.
fn is_count(v: u64, count: usize) -> bool
    ensures { result ≡ eqb v (middle + count) }
{
    if v < limits::MIDDLE {
        return false;
    }
    v - limits::MIDDLE == count as u64
}

// The end of a paper: the LF of its last line, and nothing more. A fault of that line is told of line 0, and bytes behind it of line 1.
pub fn closing(s: &[u8]) -> Result<(), Wrong>
    ensures { result ≡ as_end (closed 0 s.now) }
{
    if !text::starts(s, b"\n") {
        return Err(Wrong {
            fault: Fault::Line,
            line: 0,
        });
    }
    if s.len() != 1 {
        return Err(Wrong {
            fault: Fault::Line,
            line: 1,
        });
    }
    Ok(())
}

// The last line, `end=` with the count, behind which nothing stands, likewise.
pub fn end_line(s: &[u8], count: usize) -> Result<(), Wrong>
    ensures { result ≡ as_end (end_line count 0 s.now) }
{
    if !text::starts(s, b"end=") {
        return Err(Wrong {
            fault: Fault::Line,
            line: 0,
        });
    }
    let told = text::rest(s, 4);
    let number = number_piece(told).map_err(|fault| Wrong { fault, line: 0 })?;
    if !is_count(number.value, count) {
        return Err(Wrong {
            fault: Fault::Line,
            line: 0,
        });
    }
    closing(text::rest(told, number.bytes))
}
