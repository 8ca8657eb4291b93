// The rules that a term is rewritten by: the standing table, matching, the fitting rule as a part of one of two lists, and whether the
// lists are the usual ones.
#![tactic(auto)]

pub mod finding;
pub mod index;
pub mod indexed;
pub mod lists;
pub mod matching;
pub mod search;
pub mod stored_rule;
pub mod table;
pub mod usual;
