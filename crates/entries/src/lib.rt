// Whether words are the items and rounds of a device's record.

#![tactic(auto)]

pub mod entries;
