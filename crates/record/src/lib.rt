// One device's record of the lent table: what its words say, and a record at first.

#![tactic(auto)]

pub mod begin;
