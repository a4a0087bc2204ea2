// The text of a record: its fields, the numbers in them, and text put into a buffer.

#![tactic(auto)]

pub mod field;
pub mod number;
pub mod put;
