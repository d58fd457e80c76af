// How much space a caller lends for what is printed, by names; each size is made of the limits that it follows from, and what is printed is proved to fit it.
#![tactic(auto)]

// A line of the outlook at its longest: `outlook=`, ten digits and LF.
pub const PATTERN_LINE: usize = 19;

// All lines of an outlook.
pub const LIST: usize = limits::PARTS * PATTERN_LINE;

// All that the desk prints: the lines of an outlook, and as many bytes more as there may be of them for the next card and the tasks.
pub const DESK: usize = LIST + limits::PARTS;

// What the clerk's program prints with the word `why`: the rules' own words, and 128 bytes beside them for each rule that there may be.
pub const WHY: usize = limits::SHEET_BYTES + 128 * limits::RULES;

// With the words `card` and `blank`: a card.
pub const CARD: usize = limits::CARD_BYTES;

// With the word `outlook`: for each pattern the names of all statuses with a byte before each, and 48 bytes more.
pub const NAMED: usize = limits::PARTS * (limits::STATUSES * (limits::NAME_BYTES + 1) + 48);

// With the word `check`: a line of at most 128 bytes for each node of a circle.
pub const CHECK: usize = 128 * limits::NODES;
