// What follows from the definitions of `meaning` stands in specs/. A library needs an item: this one says how many nodes a graph has at most.
#![tactic(auto)]

pub const NODES: usize = 64;
