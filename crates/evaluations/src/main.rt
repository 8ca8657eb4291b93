// Document 01's sums, the figures of document 004 and the endless program, evaluated: a line each, with the fields of document 01.
#![tactic(auto)]

mod programs;

ghost use Rattle.std.specs.Prelude.{◌≤◌};

use crate::programs::{ENDLESS, FIGURE2, FIGURE5, FIGURE6, FIGURE7, FIGURE8, SUMS};
use checker::builtins::start_arities;
use evaluator::evaluate;
use evaluator::values::Outcome;
use rules::index::index_of;
use rules::indexed::Indexed;
use rules::lists::Lists;
use rules::table::standing_list;
use std::io;

// One question to a program with one function of one argument, or none.
fn answer(
    rt: &impl Print,
    name: &str,
    ws: &[u16],
    own: &[u16],
    levels: usize,
    steps: u32,
) -> io::Result<()>
    requires { (levels ≤ 1000) × (steps ≤ 1000000) }
{
    let standing = standing_list();
    let standing_index = index_of(&standing);
    let own_index = index_of(own);
    let mut arities = start_arities();
    arities[16] = 1;
    let lists = Lists {
        arities: &arities,
        standing: Indexed {
            list: &standing,
            index: &standing_index,
        },
        own: Indexed {
            list: own,
            index: &own_index,
        },
    };
    let Outcome { end, steps: taken } = evaluate(ws, lists, levels, steps);
    println!(rt; "{name} | {end} {taken}")
}

// The same within 500 levels and 100,000 steps.
fn ask(rt: &impl Print, name: &str, ws: &[u16], own: &[u16]) -> io::Result<()> {
    answer(rt, name, ws, own, 500, 100000)
}

// The starred sums of document 01.
fn sums(rt: &impl Print) -> io::Result<()> {
    let own = &SUMS;
    ask(rt, "succ(succ(0))", &[2, 2, 1], own)?;
    ask(rt, "succ(raise A)", &[2, 11, 32], own)?;
    ask(rt, "handle(succ(0),A,0)", &[12, 2, 1, 32, 1], own)?;
    ask(
        rt,
        "handle(raise A,A,succ(0))",
        &[12, 11, 32, 32, 2, 1],
        own,
    )?;
    ask(rt, "handle(raise B,A,0)", &[12, 11, 33, 32, 1], own)?;
    ask(rt, "if(0,True,False)", &[10, 1, 3, 4], own)?;
    ask(rt, "if(raise A,0,0)", &[10, 11, 32, 1, 1], own)?;
    ask(rt, "+(0,0)", &[256, 1, 1], own)?;
    ask(rt, "+(succ(0),0)", &[256, 2, 1, 1], own)?;
    ask(rt, "+(True,0)", &[256, 3, 1], own)?;
    ask(rt, "+(succ(if(0,0,0)),0)", &[256, 2, 10, 1, 1, 1, 1], own)?;
    ask(rt, "+(raise A,raise B)", &[256, 11, 32, 11, 33], own)
}

// The figures of document 004 that end. Six factorial has more steps than the first allowance.
fn figures(rt: &impl Print) -> io::Result<()> {
    ask(rt, "f(0) figure 2", &[384, 1], &FIGURE2)?;
    ask(rt, "f(0) figure 5", &[384, 1], &FIGURE5)?;
    ask(rt, "f(0) figure 7", &[384, 1], &FIGURE7)?;
    ask(rt, "f(succ(0)) figure 8", &[384, 2, 1], &FIGURE8)?;
    let six = [384, 2, 2, 2, 2, 2, 2, 1];
    ask(rt, "f(6) figure 8", &six, &FIGURE8)?;
    let name = "f(6) figure 8, a million steps";
    answer(rt, name, &six, &FIGURE8, 500, 1000000)
}

// Figure 6, which does not end: too deep, or out of steps one step sooner.
fn figure_6(rt: &impl Print) -> io::Result<()> {
    ask(rt, "f(0) figure 6", &[384, 1], &FIGURE6)?;
    let name = "f(0) figure 6, 1000 steps";
    answer(rt, name, &[384, 1], &FIGURE6, 500, 1000)
}

// The endless program at its bounds.
fn endless(rt: &impl Print) -> io::Result<()> {
    let own = &ENDLESS;
    let ws = &[384, 1];
    ask(rt, "g(0) loop", ws, own)?;
    answer(rt, "g(0), 100 levels, 495 steps", ws, own, 100, 495)?;
    answer(rt, "g(0), 100 levels, 496 steps", ws, own, 100, 496)?;
    answer(rt, "g(0), 100 levels, 1000 steps", ws, own, 100, 1000)?;
    let name = "g(0), 1000 levels, 1000000 steps";
    answer(rt, name, ws, own, 1000, 1000000)
}

fn main(rt: HostRuntime) -> io::Result<()> {
    sums(&rt)?;
    figures(&rt)?;
    figure_6(&rt)?;
    endless(&rt)
}
