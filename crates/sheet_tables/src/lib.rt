// A sheet as tables: what it says above its rules, names as they are kept and everything else by its place, and its rules.
#![tactic(auto)]

ghost use Rattle.std.specs.Prelude.{[], ◌≡◌};
ghost use Rattle.sheet_tables.specs.Heads.{blank};
ghost use Rattle.sheet_tables.specs.Rules.{as_rules};

#[derive(Clone, Copy)]
pub struct Heads {
    pub model: name::Name,
    pub fields: usize,
    pub events: usize,
    pub stages: usize,
    pub miles: usize,
    // The names of the fields, then the events, the stages and the miles.
    pub names: name::Table,
    // The fields that an event carries stand from its place times the most fields on; how many there are is told beside.
    pub carried: [u8; limits::CARRIED],
    pub carries: [u8; limits::EVENTS],
    // Under which stage a status stands: 0 for none, otherwise the stage's place and 1 more.
    pub under: [u8; limits::STATUSES],
}

// What sets a rule off: nothing, an event, or a status that rises or falls; each by its place.
#[derive(Clone, Copy)]
pub enum Trigger {
    Always,
    Event(u8),
    Rise(u8),
    Fall(u8),
}

// A rule: whether it opens its status, and where the words of its condition begin and end; they are none where it has no condition.
#[derive(Clone, Copy)]
pub struct Rule {
    pub plus: bool,
    pub status: u8,
    pub trigger: Trigger,
    pub from: u16,
    pub to: u16,
}

// The rules in sheet order, and how many words and leaves their conditions have together.
#[derive(Clone, Copy)]
pub struct Rules {
    pub rows: [Rule; limits::RULES],
    pub count: usize,
    pub top: usize,
    pub leaves: usize,
}

// The tables of a refused sheet: all blank.
pub fn no_heads() -> Heads
    ensures { result ≡ blank }
{
    let model = name::no_name();
    let names = name::no_names();
    Heads {
        model,
        fields: 0,
        events: 0,
        stages: 0,
        miles: 0,
        names,
        carried: [0; limits::CARRIED],
        carries: [0; limits::EVENTS],
        under: [0; limits::STATUSES],
    }
}

// No rules yet: a blank table, with which reading begins.
pub fn no_rules() -> Rules
    ensures { result ≡ as_rules [] }
{
    Rules {
        rows: [Rule {
            plus: false,
            status: 0,
            trigger: Trigger::Always,
            from: 0,
            to: 0,
        }; limits::RULES],
        count: 0,
        top: 0,
        leaves: 0,
    }
}
