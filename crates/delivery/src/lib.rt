// Items put onto a device's channel: behind those that wait there, or joined to the last of 8.

#![tactic(auto)]

pub mod deliver;
