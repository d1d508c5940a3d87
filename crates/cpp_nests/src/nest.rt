//! The constructs that are open.

ghost use Rattle.std.specs.Prelude.{◌≡◌, [], ◌∷◌, length, OnOk};
ghost use Rattle.cpp_nests.specs.Nests.{rank, closed_to, rest, turn, turned, ended, after, is_else};

use crate::roles::{Opened, Role};
use std::alloc::{AllocError, Global};
use std::marker::Model;

/// The constructs that are open, of which the one opened last is the innermost.
#[derive(Drop)]
pub struct Nest {
    // The innermost is the last.
    open: Vec<Opened>,
}

impl Model for Nest {
    ghost use Rattle.std.specs.Prelude.{List, reverse};
    ghost use Rattle.cpp_nests.specs.declared.roles.Opened.{Opened};

    ghost Value = { List Opened };

    ghost view = { λ nest. reverse nest.open.items };
}

impl Opened {
    /// How loosely it binds: what ends it ends all that binds tighter.
    fn rank(self) -> u32
        ensures { result ≡ rank self }
    {
        match self {
            Opened::Operator => 1,
            Opened::Assignment => 2,
            Opened::Choice => 3,
            Opened::Statement => 4,
            Opened::If => 5,
            Opened::Bracket => 6,
        }
    }

    /// What it is behind its colon, or behind its `else`.
    fn turned(self) -> Opened
        ensures { result ≡ turn self }
    {
        match self {
            Opened::Choice => Opened::Assignment,
            Opened::If => Opened::Statement,
            other => other,
        }
    }
}

impl Nest {
    /// Nothing is open.
    pub fn new(alloc: Global) -> Nest
        ensures { result ≡ [] }
    {
        Nest {
            open: Vec::new(alloc),
        }
    }

    /// How many are open.
    pub fn len(&self) -> usize
        ensures { result ≡ length self.now }
    {
        self.open.len()
    }

    /// What is open behind a token, given its role and that of the next.
    pub fn take(&mut self, role: Role, next: Role) -> Result<(), AllocError>
        ensures { OnOk result (self.new ≡ after role (is_else next) self.old) }
    {
        match role {
            Role::Opens(construct) => self.push(construct)?,
            Role::Operand => self.close_to(2),
            Role::Closes => self.close_bracket(2),
            Role::EndsBlock => self.close_bracket(end_rank(next)),
            Role::Ends => self.close_to(end_rank(next)),
            Role::Separates => self.close_to(4),
            Role::Divides => self.turn(3)?,
            Role::Else => self.turn(5)?,
            Role::Silent => {}
        }
        Ok(())
    }

    /// Opens a construct in the innermost.
    fn push(&mut self, construct: Opened) -> Result<(), AllocError>
        ensures { OnOk result (self.new ≡ construct ∷ self.old) }
    {
        self.open.push(construct)?;
        Ok(())
    }

    /// Closes the innermost ones that bind tighter than a rank.
    fn close_to(&mut self, rank: u32)
        ensures { self.new ≡ closed_to rank self.old }
    {
        'close: while let Some(last) = self.open.last() {
            if last.rank() >= rank {
                return;
            }
            self.open.pop();
        }
    }

    /// Closes the innermost bracket, and then what binds tighter than a rank.
    fn close_bracket(&mut self, rank: u32)
        ensures { self.new ≡ closed_to rank (rest (closed_to 6 self.old)) }
    {
        self.close_to(6);
        self.open.pop();
        self.close_to(rank);
    }

    /// Closes what binds tighter than a rank, and turns what is then the innermost to its last part.
    fn turn(&mut self, rank: u32) -> Result<(), AllocError>
        ensures { OnOk result (self.new ≡ turned (closed_to rank self.old)) }
    {
        self.close_to(rank);
        if let Some(last) = self.open.pop() {
            self.open.push(last.turned())?;
        }
        Ok(())
    }
}

/// The rank to which the end of a statement closes: all statements, or none where `else` follows.
fn end_rank(next: Role) -> u32
    ensures { result ≡ ended (is_else next) }
{
    match next {
        Role::Else => 4,
        _ => 6,
    }
}
