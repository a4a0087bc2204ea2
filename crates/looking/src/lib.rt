// The two steps of a device that only look, read and confirmed, behind one dispatcher.

#![tactic(auto)]

mod confirmed;
pub mod look;
mod read;
