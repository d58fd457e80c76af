// Every limit of the document by its name, as `specs/Limits.antt` of the meaning has them, and the sizes of the tables that follow.
#![tactic(auto)]

// How many bytes a sheet, a card, an event line and the desk's input may have.
pub const SHEET_BYTES: usize = 32768;

pub const CARD_BYTES: usize = 1024;

pub const EVENT_BYTES: usize = 512;

pub const DESK_BYTES: usize = 34304;

// How many bytes a name may have.
pub const NAME_BYTES: usize = 12;

// How many fields, events, stages and miles together, and rules a sheet may have.
pub const FIELDS: usize = 16;

pub const EVENTS: usize = 16;

pub const STATUSES: usize = 32;

pub const RULES: usize = 128;

// How many leaves all conditions of a sheet may have together.
pub const LEAVES: usize = 512;

// How many nots and groups may stand around each other.
pub const NESTING: usize = 8;

// How many combinations of parts an outlook may have.
pub const PARTS: usize = 4096;

// The scale of numbers: the place of 0, which is also the greatest amount, and the place of the highest.
pub const MIDDLE: u64 = 1000000000;

pub const HIGHEST: u64 = MIDDLE + MIDDLE;

// The sizes of tables: the names of a sheet,
pub const NAMES: usize = FIELDS + EVENTS + STATUSES;
// the fields that its events carry,
pub const CARRIED: usize = EVENTS * FIELDS;
// the nodes of its graph, two for each status,
pub const NODES: usize = 2 * STATUSES;
// the words of all its conditions,
pub const WORDS: usize = 2 * LEAVES;
// and its tests: the rules, and one implied closing for each status.
pub const TESTS: usize = RULES + STATUSES;
