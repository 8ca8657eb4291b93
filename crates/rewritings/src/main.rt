// Prints the rewriter's term after every number of steps, and how the run ends, for some programs and questions: traces that two
// other implementations agree on. Each run is made twice, with steps in place and with every step into the other buffer; where the two
// differ, in the ending, the count or a word of either buffer, it says so.
#![tactic(auto)]

ghost use Rattle.std.specs.Prelude.{◌≤◌};

use checker::builtins::start_arities;
use rewriter::{Answer, rewrite, rewrite_each};
use rules::index::index_of;
use rules::indexed::Indexed;
use rules::lists::Lists;
use rules::table::standing_list;
use std::io;
use words::shown::Spaced;

// The words up to the first 0, which is no symbol.
fn print_words(rt: &impl Print, words: &[u16]) -> io::Result<()> {
    let end = words.iter().position(|w| *w == 0).unwrap_or(words.len());
    println!(rt; "{}", Spaced(&words[..end]))
}

// What is rewritten, by which lists, in how much room.
#[derive(Drop)]
struct Subject<'a> {
    lists: Lists<'a>,
    question: &'a [u16],
    room: usize,
    ghost room_fits: { room ≤ 512 },
}

impl Subject<'_> {
    // Rewrites within so many steps in each of the two ways, prints the term that the one leaves, and answers how the other ends.
    fn after(&self, rt: &impl Print, steps: usize) -> io::Result<Answer>
        requires { steps ≤ 1000000 }
    {
        let mut first = [7u16; 513];
        let mut second = [7u16; 513];
        let a = rewrite(
            self.lists,
            self.question,
            &mut first,
            &mut second,
            steps,
            self.room,
        );
        let mut first_each = [7u16; 513];
        let mut second_each = [7u16; 513];
        let b = rewrite_each(
            self.lists,
            self.question,
            &mut first_each,
            &mut second_each,
            steps,
            self.room,
        );
        print_words(rt, &first)?;
        for same in [a == b, first == first_each, second == second_each] {
            if !same {
                println!(rt; "differs")?;
            }
        }
        Ok(b)
    }

    // The same for every number of steps up to the most, and then how the run ends.
    fn trace(&self, rt: &impl Print, most: usize) -> io::Result<()>
        requires { most ≤ 1000000 }
    {
        for steps in 0..most {
            self.after(rt, steps)?;
        }
        let a = self.after(rt, most)?;
        println!(rt; "{} {}", a.said, a.steps)
    }
}

// A question to a program with these arities and this own list, in so much room, for every number of steps up to the most.
fn trace<'a>(
    rt: &impl Print,
    arities: &'a [u8],
    own: &'a [u16],
    question: &'a [u16],
    room: usize,
    most: usize,
) -> io::Result<()>
    requires { (room ≤ 512) × (most ≤ 1000000) }
{
    let standing = standing_list();
    let standing_index = index_of(&standing);
    let own_index = index_of(own);
    let lists = Lists {
        arities,
        standing: Indexed {
            list: &standing,
            index: &standing_index,
        },
        own: Indexed {
            list: own,
            index: &own_index,
        },
    };
    let subject = Subject {
        lists,
        question,
        room,
    };
    subject.trace(rt, most)
}

// Figure 2's program and figure 4's terms, with fire(A) where figure 4's ninth arrow leaves raise(A).
fn figure_two(rt: &impl Print) -> io::Result<()> {
    let mut arities = start_arities();
    arities[16] = 1;
    let own = [
        2u16, 2, 11, 32, 6, 32, 2, 2, 11, 33, 6, 33, 4, 6, 12, 64, 32, 65, 8, 9, 64, 64, 32, 65, 4,
        6, 12, 64, 33, 65, 8, 9, 64, 64, 33, 65, 6, 1, 8, 6, 32, 64, 32, 65, 65, 6, 1, 8, 6, 33,
        64, 33, 65, 65, 6, 2, 8, 6, 32, 64, 33, 65, 6, 32, 6, 2, 8, 6, 33, 64, 32, 65, 6, 33, 2, 2,
        384, 64, 385, 64, 2, 5, 385, 64, 7, 9, 64, 386, 64, 2, 9, 386, 64, 12, 256, 11, 32, 384, 1,
        32, 2, 1,
    ];
    let question = [384u16, 1];
    trace(rt, &arities, &own, &question, 512, 13)
}

// A handler for another exception: select of unequal exceptions.
fn unequal(rt: &impl Print) -> io::Result<()> {
    let mut arities = start_arities();
    arities[16] = 2;
    let own = [
        2u16, 2, 11, 32, 6, 32, 2, 2, 11, 33, 6, 33, 2, 2, 11, 34, 6, 34, 4, 6, 12, 64, 32, 65, 8,
        9, 64, 64, 32, 65, 4, 6, 12, 64, 33, 65, 8, 9, 64, 64, 33, 65, 4, 6, 12, 64, 34, 65, 8, 9,
        64, 64, 34, 65, 6, 1, 8, 6, 32, 64, 32, 65, 65, 6, 1, 8, 6, 33, 64, 33, 65, 65, 6, 1, 8, 6,
        34, 64, 34, 65, 65, 6, 2, 8, 6, 32, 64, 33, 65, 6, 32, 6, 2, 8, 6, 32, 64, 34, 65, 6, 32,
        6, 2, 8, 6, 33, 64, 32, 65, 6, 33, 6, 2, 8, 6, 33, 64, 34, 65, 6, 33, 6, 2, 8, 6, 34, 64,
        32, 65, 6, 34, 6, 2, 8, 6, 34, 64, 33, 65, 6, 34, 3, 3, 384, 64, 65, 385, 64, 65, 3, 6,
        385, 64, 65, 7, 9, 64, 386, 64, 65, 3, 6, 386, 64, 65, 7, 9, 65, 387, 64, 65, 5, 4, 387,
        70, 2, 2, 68, 10, 1, 3, 4, 4, 6, 387, 66, 2, 1, 12, 4, 34, 256, 66, 3, 3, 4, 387, 65, 1,
        10, 3, 65, 3,
    ];
    let question = [
        384u16, 2, 12, 2, 2, 11, 33, 32, 2, 264, 2, 2, 2, 2, 2, 2, 2, 2, 1, 4, 2, 11, 33,
    ];
    trace(rt, &arities, &own, &question, 512, 11)
}

// Calls of `if` and of built-ins.
fn choices(rt: &impl Print) -> io::Result<()> {
    let mut arities = start_arities();
    arities[17] = 1;
    arities[18] = 1;
    let own = [
        2u16, 2, 11, 32, 6, 32, 2, 2, 11, 33, 6, 33, 4, 6, 12, 64, 32, 65, 8, 9, 64, 64, 32, 65, 4,
        6, 12, 64, 33, 65, 8, 9, 64, 64, 33, 65, 6, 1, 8, 6, 32, 64, 32, 65, 65, 6, 1, 8, 6, 33,
        64, 33, 65, 65, 6, 2, 8, 6, 32, 64, 33, 65, 6, 32, 6, 2, 8, 6, 33, 64, 32, 65, 6, 33, 1, 1,
        384, 385, 2, 2, 392, 64, 393, 64, 2, 5, 393, 64, 7, 9, 64, 394, 64, 3, 1, 394, 2, 68, 68,
        2, 4, 394, 1, 2, 2, 2, 1, 2, 2, 400, 64, 401, 64, 2, 5, 401, 64, 7, 9, 64, 402, 64,
    ];
    let question = [392u16, 392, 296, 400, 256, 10, 4, 1, 1, 11, 32, 384];
    trace(rt, &arities, &own, &question, 512, 25)
}

// Figure 6's program, which grows: within 12 words the eleventh step is too big.
fn too_big(rt: &impl Print) -> io::Result<()> {
    let mut arities = start_arities();
    arities[16] = 1;
    let own = [
        2u16, 2, 11, 32, 6, 32, 2, 2, 11, 33, 6, 33, 4, 6, 12, 64, 32, 65, 8, 9, 64, 64, 32, 65, 4,
        6, 12, 64, 33, 65, 8, 9, 64, 64, 33, 65, 6, 1, 8, 6, 32, 64, 32, 65, 65, 6, 1, 8, 6, 33,
        64, 33, 65, 65, 6, 2, 8, 6, 32, 64, 33, 65, 6, 32, 6, 2, 8, 6, 33, 64, 32, 65, 6, 33, 2, 2,
        384, 64, 385, 64, 2, 5, 385, 64, 7, 9, 64, 386, 64, 2, 10, 386, 64, 12, 10, 4, 11, 32, 384,
        64, 32, 2, 1,
    ];
    let question = [384u16, 1];
    trace(rt, &arities, &own, &question, 12, 12)
}

fn main(rt: HostRuntime) -> io::Result<()> {
    figure_two(&rt)?;
    unequal(&rt)?;
    choices(&rt)?;
    too_big(&rt)
}
