// The rules that definition 4.1 generates, as words: each function appends them to a writer over a lent slice.
#![tactic(auto)]

pub mod exceptions;
pub mod functions;
pub mod writing;
