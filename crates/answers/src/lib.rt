// The text of an answer, as document 01 writes it.

#![tactic(auto)]

pub mod answer;
