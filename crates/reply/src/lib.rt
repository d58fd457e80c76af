// What a request returns: the refusal numbers of the document, and the numbers of a reply.
#![tactic(auto)]

ghost use Rattle.std.specs.Prelude.{ℕ, ◌≡◌, refl};
ghost use Rattle.reply.specs.Answers.{refused_reply};
ghost use Rattle.reply.specs.Faults.{number_of, fault_of, wrong_of, numbered, fault_again, wrong_again};

// Sheet, card, event line or the desk's input over its length.
pub const LONG: u8 = 1;
// Key, mark, word or LF not as due; a line missing or too many; `end` not the true count.
pub const LINE: u8 = 2;
// A name malformed, reserved, already used, unknown, of the wrong kind, or not the one due.
pub const NAME: u8 = 3;
// A number malformed or out of range.
pub const NUMBER: u8 = 4;
// In a condition: operator, parenthesis or joining word not as due; nesting 9.
pub const COND: u8 = 5;
// The first line or leaf over a limit.
pub const FULL: u8 = 6;
// The dependency graph has a cycle.
pub const CYCLE: u8 = 7;
// A stage is yes under a parent that is no.
pub const ORPHAN: u8 = 8;
// The result is longer than the space lent.
pub const ROOM: u8 = 9;
// The missing answers split into too many combinations.
pub const MANY: u8 = 10;

// The papers, as a refusal names them.
pub const SHEET: u8 = 1;

pub const CARD: u8 = 2;

pub const EVENT: u8 = 3;

// What is wrong with a paper or a request, with the number of the document.
#[derive(Clone, Copy)]
pub enum Fault {
    // Sheet, card, event line or the desk's input over its length.
    Long = 1,
    // Key, mark, word or LF not as due; a line missing or too many; `end` not the true count.
    Line = 2,
    // A name malformed, reserved, already used, unknown, of the wrong kind, or not the one due.
    Name = 3,
    // A number malformed or out of range.
    Number = 4,
    // In a condition: operator, parenthesis or joining word not as due; nesting 9.
    Cond = 5,
    // The first line or leaf over a limit.
    Full = 6,
    // The dependency graph has a cycle.
    Cycle = 7,
    // A stage is yes under a parent that is no.
    Orphan = 8,
    // The result is longer than the space lent.
    Room = 9,
    // The missing answers split into too many combinations.
    Many = 10,
}

// What a refusal is told by: its fault, or its number alone, which may be any.
pub trait Told {
    // its number
    ghost number: { Self → ℕ };
    // what the refusal with a number is told by
    ghost with_number: { ℕ → Self };

    // What a fault is told by.
    fn from_fault(fault: Fault) -> Self
        ensures { result ≡ with_number (number_of fault) };

    // Its number.
    fn number_told(self) -> u8
        ensures { result ≡ number self };

    // it is told again by its number
    ghost again: { (r : Self) → with_number (number r) ≡ r };
}

impl Told for Fault {
    ghost number = { number_of };

    ghost with_number = { fault_of };

    ghost again = { fault_again };

    fn from_fault(fault: Fault) -> Fault {
        fault
    }

    fn number_told(self) -> u8 {
        number(self)
    }
}

impl Told for u8 {
    ghost number = { λ n. n };

    ghost with_number = { λ n. n };

    ghost again = { λ n. refl };

    // A fault by its number.
    fn from_fault(fault: Fault) -> u8 {
        number(fault)
    }

    fn number_told(self) -> u8 {
        self
    }
}

// A fault of a paper, and its line.
#[derive(Clone, Copy)]
pub struct Wrong {
    pub fault: Fault,
    pub line: usize,
}

// What a paper's refusal is told by: its fault and line, or its number alone, which may be any, and its line.
pub trait ToldAt {
    // its number
    ghost number: { Self → ℕ };
    // its line
    ghost line: { Self → ℕ };
    // what the refusal with a number and a line is told by
    ghost with_number: { ℕ → ℕ → Self };

    // What a fault and its line are told by.
    fn from_wrong(wrong: Wrong) -> Self
        ensures { result ≡ with_number (number_of wrong.fault) wrong.line };

    // it is told again by its number and line
    ghost again: { (r : Self) → with_number (number r) (line r) ≡ r };
}

impl ToldAt for Wrong {
    ghost number = { λ w. number_of w.fault };

    ghost line = { λ w. w.line };

    ghost with_number = { wrong_of };

    ghost again = { wrong_again };

    fn from_wrong(wrong: Wrong) -> Wrong {
        wrong
    }
}

// A refusal that is told by its number alone, and its line.
#[derive(Clone, Copy)]
pub struct Numbered {
    pub number: u8,
    pub line: usize,
}

impl ToldAt for Numbered {
    ghost number = { λ r. r.number };

    ghost line = { λ r. r.line };

    ghost with_number = { numbered };

    ghost again = { λ r. refl };

    // The fault by its number, and its line.
    fn from_wrong(wrong: Wrong) -> Numbered {
        Numbered {
            number: number(wrong.fault),
            line: wrong.line,
        }
    }
}

// The numbers that a request returns: number, paper and line of a refusal or 0, how long the card or list is, and the tasks started as a pattern.
#[derive(Clone, Copy)]
pub struct Reply {
    pub number: u8,
    pub paper: u8,
    pub line: usize,
    pub count: usize,
    pub tasks: u32,
}

// A refusal: number, paper and line; its other numbers are 0.
pub fn refusal(number: u8, paper: u8, line: usize) -> Reply
    ensures { result ≡ refused_reply number paper line }
{
    Reply {
        number,
        paper,
        line,
        count: 0,
        tasks: 0,
    }
}

// The number of a fault.
pub fn number(fault: Fault) -> u8
    ensures { result ≡ number_of fault }
{
    fault as u8
}
