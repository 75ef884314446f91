// Questions: the call that a line asks, and its answer. It reads and writes no file.
#![tactic(auto)]

pub mod ask;
