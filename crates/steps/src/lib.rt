// The step grammar: which step a line is (document 01, "Step program").

#![tactic(auto)]

pub mod parse;
