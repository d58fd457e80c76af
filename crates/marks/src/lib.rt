// The codes of marks and of values: a mark is no, unknown or yes; a value is 0 for `?`, otherwise its place on the scale and 1 more.
#![tactic(auto)]

ghost use Rattle.std.specs.Prelude.{◌≡◌};
ghost use Rattle.marks.specs.Codes.{yes_at};

pub const NO: u8 = 0;

pub const UNKNOWN: u8 = 1;

pub const YES: u8 = 2;

// The marks of all statuses.
// Stays: marks and values are codes, since public functions (`yes`, `verdict`, `run_step`) take any code: an enum would be a narrower parameter type.
pub type Marks = [u8; limits::STATUSES];

// The codes of the values of all fields.
pub type Values = [u64; limits::FIELDS];

// The status is yes.
pub fn yes(marks: &Marks, x: u8) -> bool
    ensures { result ≡ yes_at marks.now x }
{
    marks.get(usize::from(x)) == Some(&YES)
}
