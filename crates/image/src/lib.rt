// The stored image of a table's lasting part (document 01, "Stored image"): written from a table, opened into one.

#![tactic(auto)]

pub mod element;
pub mod opening;
pub mod reading;
pub mod writing;
