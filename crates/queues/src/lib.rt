// The queues of a device's record: its rounds and its items, stored, joined and moved.

#![tactic(auto)]

pub mod above;
pub mod item;
pub mod round;
