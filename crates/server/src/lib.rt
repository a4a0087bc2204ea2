// The server and the links on the lent table.

#![tactic(auto)]

mod batch;
pub mod calls;
mod ends;
mod gather;
mod prefix;
mod settle;
