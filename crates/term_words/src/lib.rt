// Terms in bytes, as words: read once more where the checker has found them whole, and written root first.
#![tactic(auto)]

pub mod roots;
pub mod terms;

// Bytes in which terms stand, and how many arguments each function has, by its number.
#[derive(Clone, Copy)]
pub struct TermBytes<'a> {
    pub arities: &'a [u8],
    pub bytes: &'a [u8],
}
