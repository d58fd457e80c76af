// Card and event line of a case as tables: values, where their texts stand, and marks.
#![tactic(auto)]

ghost use Rattle.std.specs.Prelude.{◌≡◌};

// A card: of each field its value's code and where its text stands; of each status its mark.
#[derive(Clone, Copy)]
pub struct Card {
    pub values: marks::Values,
    pub starts: [usize; limits::FIELDS],
    pub lengths: [usize; limits::FIELDS],
    pub marks: marks::Marks,
}

// An event line: the event, and of each field that it carries the value and where its text stands.
#[derive(Clone, Copy)]
pub struct Happening {
    pub event: usize,
    pub count: usize,
    pub fields: [u8; limits::FIELDS],
    pub values: marks::Values,
    pub starts: [usize; limits::FIELDS],
    pub lengths: [usize; limits::FIELDS],
}

// The number of a field, as a place in the tables.
pub fn place(field: u8) -> usize
    ensures { result ≡ field }
{
    field as usize
}
