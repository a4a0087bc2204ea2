// The lines of an image's text: which text is a cell's, and which a number's.

#![tactic(auto)]

pub mod line;
