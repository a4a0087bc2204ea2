// The words of a line of the step program: the steps' names and the values (document 01, "Step program").

#![tactic(auto)]

pub mod names;
pub mod values;
