// Lines of questions: a line's word and arguments, and the words of its answer. It asks no call, and reads and writes no file.
#![tactic(auto)]

pub mod bytes;
pub mod fault;
pub mod line;
pub mod text;
pub mod words;
