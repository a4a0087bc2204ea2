// Whether words are a device's record: a test for each condition on them.

#![tactic(auto)]

pub mod check;
mod link;
