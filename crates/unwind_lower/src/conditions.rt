//! Conditionals.

ghost use Rattle.std.specs.Prelude.{◌≡◌, ◌+◌, ◌≤◌, length, reverse, IfOk, OnOk};
ghost use Rattle.low_code.specs.Nodes.{node_of};
ghost use Rattle.unwind_lower.specs.States.{state_of, jump_from};
ghost use Rattle.unwind_lower.specs.Settings.{setting_of};
ghost use Rattle.unwind_lower.specs.Conditions.{is_end, up_to_end, repeat_rest, bind_behind, start_other, other, other_again, branch};

use crate::items::{Item, Other, Way};
use crate::lowering::Lowering;
use crate::writing::Writing;
use cpp_tree::TNode;
use low_code::nodes::kid;
use low_code::{Jump, Owner};
use std::alloc::AllocError;

// Whether the full-expression ends with this item.
fn is_end(item: Item) -> bool
    ensures { result ≡ is_end item }
{
    matches!(item, Item::Close(Owner::Full, _))
}

// How many items there are up to the end of the full-expression, that one included; the next one is last.
fn rest_of_full(work: &[Item]) -> Result<usize, AllocError>
    ensures within { IfOk result (λ rest. rest ≤ length work.now) }
    ensures count { IfOk result (λ rest. rest ≡ length (up_to_end (reverse work.now))) }
{
    let mut left = work.len();
    while left > 0 {
        left -= 1;
        if is_end(work[left]) {
            return Ok(work.len() - left);
        }
    }
    Err(AllocError)
}

impl Writing {
    // What is to be written up to the end of the full-expression is to be written before this item too, and once more
    // behind it.
    #[tactic(auto, unfolding(crate::specs::Conditions::repeat_rest))]
    fn repeat_rest(&mut self, item: Item) -> Result<(), AllocError>
        ensures { OnOk result (state_of self.new ≡ repeat_rest item (state_of self.old)) }
    {
        let rest = rest_of_full(&self.work)?;
        let end = self.work.len();
        self.work.push(item)?;
        self.work.extend_from_within(end - rest..end)?;
        Ok(())
    }

    // A jump leads to the end of the full-expression.
    #[tactic(auto, unfolding(crate::specs::States::state_of, crate::specs::Conditions::bind_behind))]
    fn bind_behind(&mut self, jump: Option<Jump>) -> Result<(), AllocError>
        ensures { OnOk result (state_of self.new ≡ bind_behind jump (state_of self.old)) }
    {
        let rest = rest_of_full(&self.work)?;
        let below = self.work.len() - rest;
        self.work.insert(below, Item::Bind(jump))?;
        Ok(())
    }

    // What is to be written where the test is 0, in the scope of the test.
    #[tactic(auto, unfolding(crate::specs::Conditions::start_other))]
    fn start_other(&mut self, part: Other) -> Result<Option<Jump>, AllocError>
        ensures made { IfOk result (λ past. past ≡ jump_from (state_of self.old)) }
        ensures state { OnOk result (state_of self.new ≡ start_other part (state_of self.old)) }
    {
        let past = self.jump(part.at)?;
        self.set_scope(part.scope);
        self.bind(part.test)?;
        Ok(past)
    }

    /// What is run where the test is 0. What is chosen else jumps over it.
    #[tactic(auto, unfolding(crate::specs::Conditions::other))]
    pub fn other(&mut self, part: Other) -> Result<(), AllocError>
        ensures { OnOk result (state_of self.new ≡ other part (state_of self.old)) }
    {
        let past = self.start_other(part)?;
        self.later(Item::Bind(past))?;
        self.later(Item::Run(part.id, part.way))
    }

    /// The same, with what follows up to the end of the full-expression, over which the jump goes.
    #[tactic(auto, unfolding(crate::specs::Conditions::other_again))]
    pub fn other_again(&mut self, part: Other) -> Result<(), AllocError>
        ensures { OnOk result (state_of self.new ≡ other_again part (state_of self.old)) }
    {
        let past = self.start_other(part)?;
        self.bind_behind(past)?;
        self.later(Item::Run(part.id, part.way))
    }
}

impl<'a> Lowering<'a> {
    /// The branches of a conditional whose test lies on top.
    #[tactic(auto, unfolding(crate::specs::Conditions::branch))]
    pub fn branch(&self, w: &mut Writing, node: &TNode, way: Way) -> Result<(), AllocError>
        ensures { OnOk result (state_of w.new ≡ branch (setting_of self.now) (node_of node.now) way (state_of w.old)) }
    {
        let chosen = kid(node, 1)?;
        let other = Other {
            test: w.jump_if_zero(node.at)?,
            scope: w.scope(),
            id: kid(node, 2)?,
            way,
            at: node.at,
        };
        if self.makes_temporaries(chosen) || self.makes_temporaries(other.id) {
            w.repeat_rest(Item::OtherAgain(other))?;
        } else {
            w.later(Item::Other(other))?;
        }
        w.later(Item::Run(chosen, way))
    }
}
