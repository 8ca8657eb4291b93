// The rewriter's turns: the run of steps in two lent buffers, most of them made in place, and the one with every step into the other buffer.
#![tactic(auto)]

mod buffers;
pub mod each;
pub mod round;
pub mod run;
