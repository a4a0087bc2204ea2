// A stored image as text, for people and for tests: a line for each cell and for each device's number. Both ways.

#![tactic(auto)]

pub mod compose;
pub mod line;
pub mod show;
