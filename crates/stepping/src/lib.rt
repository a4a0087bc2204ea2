// The step program's body: the answers to the bytes of an input, as it arrives. Reading and writing are the program's.

#![tactic(auto)]

pub mod feed;
