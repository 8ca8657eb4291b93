// Terms as root-first words: the constants' words, where a term and its parts stand among words, and words copied and put in place.
#![tactic(auto)]

pub mod base;
pub mod shown;
pub mod slices;
pub mod symbols;
pub mod terms;
