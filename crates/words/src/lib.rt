// The words of the lent table: where each thing lies, how far a table reaches, the accessors of a place, and loops over runs of places.

#![tactic(auto)]

pub mod across;
pub mod check;
pub mod extent;
pub mod layout;
pub mod list;
pub mod place;
pub mod run;
