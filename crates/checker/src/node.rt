// A term's record by its kind and body, wherever the term stands.
ghost use Rattle.std.specs.Prelude.{◌≡◌, ℕ};
ghost use Rattle.checker.specs.Node.{tok_at, node_of, exception_node, builtin_node, function_node, variable_node};

use crate::builtins::{LAST_CALLED, builtin_arity};
use crate::refusal::Reason;
use record::Kind;

// What a record of a term is: a constant; succ; a variable; or what no left side has, with its parts and its words.
#[derive(Clone, Copy)]
pub enum Node {
    Leaf,
    Succ,
    Variable(u8),
    Inner { parts: u8, words: u8 },
}

// A call of a built-in.
#[tactic(auto, unfolding(crate::specs::Node::builtin_node))]
fn of_builtin(body: u8) -> Result<Node, Reason>
    ensures { result ≡ builtin_node body }
{
    if LAST_CALLED < body {
        return Err(Reason::WrongNumber);
    }
    Ok(Node::Inner {
        parts: builtin_arity(body),
        words: 1,
    })
}

// A variable.
#[tactic(auto, unfolding(crate::specs::Node::variable_node))]
fn of_variable(body: u8) -> Result<Node, Reason>
    ensures { result ≡ variable_node body }
{
    if 7 < body {
        return Err(Reason::WrongNumber);
    }
    Ok(Node::Variable(body))
}

// What terms may name: so many exceptions, and declared functions of these arities.
#[derive(Clone, Copy)]
pub struct Declared<'a> {
    pub exceptions: usize,
    pub arities: &'a [u8],
}

impl<'a> Declared<'a> {
    // raise and handle, of an exception that is declared.
    #[tactic(auto, unfolding(crate::specs::Node::exception_node))]
    fn of_exception(self, body: u8, parts: u8) -> Result<Node, Reason>
        ensures { result ≡ exception_node self.entry.exceptions body parts }
    {
        if self.exceptions <= usize::from(body) {
            return Err(Reason::WrongNumber);
        }
        Ok(Node::Inner { parts, words: 2 })
    }

    // A call of a declared function.
    #[tactic(auto, unfolding(crate::specs::Node::function_node))]
    fn of_function(self, body: u8) -> Result<Node, Reason>
        ensures { result ≡ function_node self.entry.arities.now body }
    {
        let parts = *self
            .arities
            .get(usize::from(body))
            .ok_or(Reason::WrongNumber)?;
        Ok(Node::Inner { parts, words: 1 })
    }

    // The record of a term by the byte of its kind and its body.
    #[tactic(auto, unfolding(crate::specs::Node::node_of, crate::specs::Node::tok_at, crate::specs::Node::variable_node, crate::specs::Node::exception_node, crate::specs::Node::builtin_node, crate::specs::Node::function_node), using(crate::proofs::node::Laws::none_read))]
    pub fn node_of(self, kind: u8, body: u8) -> Result<Node, Reason>
        ensures { (p : ℕ) → result ≡ node_of (tok_at self.entry.exceptions self.entry.arities.now p kind body) }
    {
        match Kind::try_from(kind)? {
            Kind::Zero | Kind::True | Kind::False => Ok(Node::Leaf),
            Kind::Succ => Ok(Node::Succ),
            Kind::Variable => of_variable(body),
            Kind::Raise => self.of_exception(body, 0),
            Kind::Handle => self.of_exception(body, 2),
            Kind::If => Ok(Node::Inner { parts: 3, words: 1 }),
            Kind::Builtin => of_builtin(body),
            Kind::Call => self.of_function(body),
            _ => Err(Reason::KindNotAllowed),
        }
    }
}
