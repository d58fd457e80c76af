// One test on a card: its trigger, its home and its condition, on the marks of the statuses before and after.
#![tactic(auto)]

ghost use Rattle.std.specs.Prelude.{◌≡◌};
ghost use Rattle.step_test.specs.Met.{rose_in, fell_in, trigger_met, home_met, condition_value, condition_met, test_met, stop_of};

use graph_tests::Test;
use marks::{Marks, Values};
use sheet_tables::Trigger;

// What a step starts from: the event, the coded values of the fields after it, and the marks of the statuses before it.
#[derive(Clone, Copy)]
pub struct Moment {
    pub event: usize,
    pub values: Values,
    pub before: Marks,
}

// The first thing that stopped a test, with the number of its kind.
#[derive(Clone, Copy)]
pub enum Stop {
    TriggerNotMet = 3,
    HomeNotOpen = 4,
    ConditionFalse = 5,
    ConditionUnknown = 6,
}

// The status was no before and is yes after.
pub fn rose(before: &Marks, after: &Marks, x: u8) -> bool
    ensures { result ≡ rose_in before.now after.now x }
{
    marks::yes(after, x) && !marks::yes(before, x)
}

// The status was yes before and is no after.
pub fn fell(before: &Marks, after: &Marks, x: u8) -> bool
    ensures { result ≡ fell_in before.now after.now x }
{
    marks::yes(before, x) && !marks::yes(after, x)
}

// No trigger, the event, or a change: a rise or a fall reads both sides.
pub fn trigger_met(t: Trigger, event: usize, before: &Marks, after: &Marks) -> bool
    ensures { result ≡ trigger_met event before.now after.now t }
{
    match t {
        Trigger::Always => true,
        Trigger::Event(e) => usize::from(e) == event,
        Trigger::Rise(y) => rose(before, after, y),
        Trigger::Fall(y) => fell(before, after, y),
    }
}

// No stage is asked for, or the one that is is yes after.
pub fn home_met(after: &Marks, home: u8) -> bool
    ensures { result ≡ home_met after.now home }
{
    home == 0 || marks::yes(after, home - 1)
}

// How the condition stands, as a mark. None is true.
#[tactic(auto, unfolding(crate::specs::Met::condition_value))]
pub fn condition_value(words: &[u64], from: u16, to: u16, values: &Values, after: &Marks) -> u8
    ensures { result ≡ condition_value words.now values.now after.now from to }
{
    if from == to {
        return marks::YES;
    }
    cond_value::verdict(words, usize::from(from), usize::from(to), values, after)
}

// No condition, or one that is true: unknown is not enough.
#[tactic(auto, unfolding(crate::specs::Met::condition_met))]
pub fn condition_met(words: &[u64], from: u16, to: u16, values: &Values, after: &Marks) -> bool
    ensures { result ≡ condition_met words.now values.now after.now from to }
{
    condition_value(words, from, to, values, after) == marks::YES
}

// The test is met by a card before and after, but for its before test, which is the node's.
#[tactic(auto, unfolding(crate::specs::Met::test_met))]
pub fn test_met(t: Test, words: &[u64], moment: &Moment, after: &Marks) -> bool
    ensures { result ≡ test_met words.now moment.now after.now t }
{
    trigger_met(t.trigger, moment.event, &moment.before, after)
        && home_met(after, t.home)
        && condition_met(words, t.from, t.to, &moment.values, after)
}

// The first thing that stopped the test, but for its before test; none where nothing did.
#[tactic(auto, unfolding(crate::specs::Met::stop_of))]
pub fn stopped(t: Test, words: &[u64], moment: &Moment, after: &Marks) -> Option<Stop>
    ensures { result ≡ stop_of words.now moment.now after.now t }
{
    if !trigger_met(t.trigger, moment.event, &moment.before, after) {
        return Some(Stop::TriggerNotMet);
    }
    if !home_met(after, t.home) {
        return Some(Stop::HomeNotOpen);
    }
    match condition_value(words, t.from, t.to, &moment.values, after) {
        marks::YES => None,
        marks::UNKNOWN => Some(Stop::ConditionUnknown),
        _ => Some(Stop::ConditionFalse),
    }
}
