// The step program's answer to one line, on the lent words.

#![tactic(auto)]

pub mod line;
