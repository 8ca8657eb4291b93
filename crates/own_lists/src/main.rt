// The own list of figure 2's program, rule by rule, and a question's words; then the largest own list, 13,263 words: its length, a slice
// of just that length, and one that is a word shorter.
#![tactic(auto)]

mod built;
mod lists;
mod shown;

use built::largest_program;
use lists::{list_length, write_list, write_question};
use shown::{show_answer, show_rules, sum_of, unchanged};
use std::io;
use words::shown::Spaced;

fn figure2(rt: &impl Print) -> io::Result<()> {
    let program = [
        1u8, 0, 1, 1, 2, 0, 1, 3, 0, 0x14, 0, 0x16, 0, 0x18, 0, 0x15, 0, 0x19, 0, 0x10, 0x11, 0x10,
        4,
    ];
    let mut own = [65535u16; 102];
    let answer = write_list(&program, &mut own);
    println!(rt; "figure 2")?;
    show_rules(rt, &own)?;
    show_answer(rt, answer)?;
    println!(rt)?;
    question(rt, &program)
}

// f(0), put to the program.
fn question(rt: &impl Print, program: &[u8]) -> io::Result<()> {
    let asked = [0x19u8, 0, 0x10];
    let mut words = [0u16; 2];
    let size = write_question(program, &asked, &mut words).unwrap_or(0);
    println!(rt; "question {size}")?;
    println!(rt; "{}", Spaced(&words))
}

// The list into all of a slice: the answer, and how many words are as they were.
fn show_filled(rt: &impl Print, program: &[u8], own: &mut [u16]) -> io::Result<()> {
    let answer = write_list(program, own);
    show_answer(rt, answer)?;
    let same = unchanged(own);
    print!(rt; " unchanged {same}")
}

fn largest(rt: &impl Print) -> io::Result<()> {
    let book = largest_program();
    let program = book.bytes();
    let bytes = program.len();
    let length = list_length(program).unwrap_or(0);
    print!(rt; "largest\nbytes {bytes}\nlength {length}\nexact: ")?;
    let mut own = [65535u16; 13263];
    show_filled(rt, program, &mut own)?;
    let sum = sum_of(&own);
    print!(rt; " sum {sum}\none shorter: ")?;
    let mut shorter = [65535u16; 13262];
    show_filled(rt, program, &mut shorter)?;
    println!(rt)
}

fn main(rt: HostRuntime) -> io::Result<()> {
    figure2(&rt)?;
    largest(&rt)
}
