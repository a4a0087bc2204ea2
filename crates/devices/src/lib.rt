// The device's steps as public calls.

#![tactic(auto)]

pub mod calls;
