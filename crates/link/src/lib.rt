// The server's side of one device: its link, on its record.

#![tactic(auto)]

pub mod accept;
pub mod ends;
pub mod gather;
pub mod settle;
mod waiting;
