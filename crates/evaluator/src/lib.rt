// The evaluator over root-first words: a question, and the right sides of the rules of the standing list and of the own list.
// Steps and levels go by the table of document 01. A call looks only at its own function's rules, by the indexes that are lent.
#![tactic(auto)]

mod evaluation;
mod fitting;
mod places;
mod rows;
pub mod values;

ghost use Rattle.std.specs.Prelude.{◌≡◌, ◌≤◌};
ghost use Rattle.evaluator.specs.Evaluation.{evaluated_by};

use crate::evaluation::eval;
use crate::values::{Outcome, Value};
use rules::lists::Lists;

// The question in ws, by the program whose lists are lent.
#[tactic(auto, unfolding(crate::specs::Evaluation::evaluated))]
pub fn evaluate(ws: &[u16], lists: Lists, levels: usize, steps: u32) -> Outcome
    requires { (levels ≤ 1000) × (steps ≤ 1000000) }
    ensures { result ≡ evaluated_by lists.entry ws.now levels steps }
{
    let a = eval(ws, 0, &lists, [Value::ZERO; 8], levels, steps);
    Outcome {
        end: a.end,
        steps: steps - a.left,
    }
}
