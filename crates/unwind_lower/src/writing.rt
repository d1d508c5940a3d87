//! What is written of a function, and what is still to be written.

ghost use Rattle.std.specs.Prelude.{◌≡◌, [], IfOk, OnOk, MatchOption};
ghost use Rattle.low_code.specs.Nodes.{node_of};
ghost use Rattle.unwind_lower.specs.States.{state_of, later, put, put_call, put_sum, put_difference, put_offset, put_less, repeated};
ghost use Rattle.unwind_lower.specs.States.{jumped, jump_from, jumped_if_zero, zero_jump_from, bound, jumped_to, bound_all};
ghost use Rattle.unwind_lower.specs.States.{entered_at, entered, entered_handler, handler_from, left, left_scope, with_temporary, caught_all, caught_one};
ghost use Rattle.unwind_lower.specs.States.{at_scope, at_depth, made_live, here, scope_of, depth_of, is_live, scope_at, scope_count};
ghost use Rattle.unwind_lower.specs.Kids.{run_kid, run_kids};

use crate::items::{Item, Way};
use cpp_tree::TNode;
use cpp_tree::below::At;
use low_code::nodes::kid;
use low_code::{Jump, NameTable, Scope, ScopeKind, Sort, Writer};
use std::alloc::{AllocError, Global};
use tx_code::Instr;

/// What is written of a function, and what is still to be written.
#[derive(Drop)]
pub struct Writing {
    pub names: NameTable,
    pub out: Writer,
    /// What is still to be written, the next item last.
    pub work: Vec<Item>,
}

impl Writing {
    /// This is to be written next, before what was to be written.
    #[tactic(auto, using(crate::proofs::Work::reverse_push), unfolding(crate::specs::States::state_of, crate::specs::States::later))]
    pub fn later(&mut self, item: Item) -> Result<(), AllocError>
        ensures { OnOk result (state_of self.new ≡ later item (state_of self.old)) }
    {
        self.work.push(item)?;
        Ok(())
    }

    /// What is to be written next, which is taken off.
    #[tactic(auto, using(crate::proofs::Work::reverse_push), unfolding(crate::specs::States::state_of, crate::specs::States::later))]
    pub fn next(&mut self) -> Option<Item>
        ensures { MatchOption result ((state_of self.new ≡ state_of self.old) × ((state_of self.old).work ≡ [])) (λ item. state_of self.old ≡ later item (state_of self.new)) }
    {
        match self.work.pop() {
            Some(item) => Some(item),
            None => None,
        }
    }

    /// The kid of a node is to be run next.
    #[tactic(auto, unfolding(crate::specs::Kids::run_kid))]
    pub fn run_kid(&mut self, node: &TNode, index: usize, way: Way) -> Result<(), AllocError>
        ensures { OnOk result (state_of self.new ≡ run_kid (node_of node.now) index way (state_of self.old)) }
    {
        let id = kid(node, index)?;
        self.later(Item::Run(id, way))
    }

    /// The kids of a node, from one on, are to be run next.
    #[tactic(auto, unfolding(crate::specs::Kids::run_kids))]
    pub fn run_kids(&mut self, node: &TNode, first: usize, way: Way) -> Result<(), AllocError>
        ensures { OnOk result (state_of self.new ≡ run_kids (node_of node.now) first way (state_of self.old)) }
    {
        let mut index = node.kids.len();
        while index > first {
            index -= 1;
            self.run_kid(node, index, way)?;
        }
        Ok(())
    }

    /// Writes an instruction that is no call.
    #[tactic(auto, unfolding(crate::specs::States::state_of, crate::specs::States::put))]
    pub fn put(&mut self, instr: Instr, at: At) -> Result<(), AllocError>
        ensures { OnOk result (state_of self.new ≡ put instr at (state_of self.old)) }
    {
        self.out.put(instr, at)
    }

    /// Writes a call that takes and hands back so many words.
    #[tactic(auto, unfolding(crate::specs::States::state_of, crate::specs::States::put_call))]
    pub fn put_call(
        &mut self,
        instr: Instr,
        at: At,
        takes: u32,
        leaves: u32,
    ) -> Result<(), AllocError>
        ensures { OnOk result (state_of self.new ≡ put_call instr at takes leaves (state_of self.old)) }
    {
        self.out.put_call(instr, at, takes, leaves)
    }

    /// Writes the sum of the two words on top as addresses.
    #[tactic(auto, unfolding(crate::specs::States::state_of, crate::specs::States::put_sum))]
    pub fn put_sum(&mut self, at: At) -> Result<(), AllocError>
        ensures { OnOk result (state_of self.new ≡ put_sum at (state_of self.old)) }
    {
        self.out.put_sum(at)
    }

    /// Adds a number to the address on top.
    #[tactic(auto, unfolding(crate::specs::States::state_of, crate::specs::States::put_offset))]
    pub fn put_offset(&mut self, offset: u32, at: At) -> Result<(), AllocError>
        ensures { OnOk result (state_of self.new ≡ put_offset offset at (state_of self.old)) }
    {
        self.out.put_offset(offset, at)
    }

    /// Takes a number from the word on top.
    #[tactic(auto, unfolding(crate::specs::States::state_of, crate::specs::States::put_less))]
    pub fn put_less(&mut self, number: u32, at: At) -> Result<(), AllocError>
        ensures { OnOk result (state_of self.new ≡ put_less number at (state_of self.old)) }
    {
        self.out.put_less(number, at)
    }

    /// Writes the difference of the two words on top as addresses.
    #[tactic(auto, unfolding(crate::specs::States::state_of, crate::specs::States::put_difference))]
    pub fn put_difference(&mut self, at: At) -> Result<(), AllocError>
        ensures { OnOk result (state_of self.new ≡ put_difference at (state_of self.old)) }
    {
        self.out.put_difference(at)
    }

    /// Jumps back to an index where the word on top, which stays, is not 0.
    #[tactic(auto, unfolding(crate::specs::States::state_of, crate::specs::States::repeated))]
    pub fn again(&mut self, top: u32, at: At) -> Result<(), AllocError>
        ensures { OnOk result (state_of self.new ≡ repeated top at (state_of self.old)) }
    {
        self.out.again(top, at)
    }

    /// A jump to a place that is still to come; `None` where no instruction can be reached.
    #[tactic(auto, unfolding(crate::specs::States::state_of, crate::specs::States::jumped, crate::specs::States::jump_from))]
    pub fn jump(&mut self, at: At) -> Result<Option<Jump>, AllocError>
        ensures made { IfOk result (λ made. made ≡ jump_from (state_of self.old)) }
        ensures state { OnOk result (state_of self.new ≡ jumped at (state_of self.old)) }
    {
        self.out.jump(at)
    }

    /// A jump that takes a word and is made where it is 0.
    #[tactic(auto, unfolding(crate::specs::States::state_of, crate::specs::States::jumped_if_zero, crate::specs::States::zero_jump_from))]
    pub fn jump_if_zero(&mut self, at: At) -> Result<Option<Jump>, AllocError>
        ensures made { IfOk result (λ made. made ≡ zero_jump_from (state_of self.old)) }
        ensures state { OnOk result (state_of self.new ≡ jumped_if_zero at (state_of self.old)) }
    {
        self.out.jump_if_zero(at)
    }

    /// The next index is where this jump leads to.
    #[tactic(auto, unfolding(crate::specs::States::state_of, crate::specs::States::bound))]
    pub fn bind(&mut self, jump: Option<Jump>) -> Result<(), AllocError>
        ensures { OnOk result (state_of self.new ≡ bound jump (state_of self.old)) }
    {
        self.out.bind(jump)
    }

    /// A jump to a place of a scope that is still to come, from that scope itself.
    #[tactic(auto, unfolding(crate::specs::States::state_of, crate::specs::States::jumped_to))]
    pub fn jump_to(&mut self, scope: u32, sort: Sort, at: At) -> Result<(), AllocError>
        ensures { OnOk result (state_of self.new ≡ jumped_to scope sort at (state_of self.old)) }
    {
        self.out.jump_to(scope, sort, at)
    }

    /// The next index is that place of the scope.
    #[tactic(auto, unfolding(crate::specs::States::state_of, crate::specs::States::bound_all))]
    pub fn bind_all(&mut self, scope: u32, sort: Sort) -> Result<(), AllocError>
        ensures { OnOk result (state_of self.new ≡ bound_all scope sort (state_of self.old)) }
    {
        self.out.bind_all(scope, sort)
    }

    /// The index of the next instruction.
    #[tactic(auto, unfolding(crate::specs::States::state_of, crate::specs::States::here))]
    pub fn here(&self) -> Result<u32, AllocError>
        ensures { IfOk result (λ index. index ≡ here (state_of self.now)) }
    {
        self.out.here()
    }

    /// The scope with this number.
    #[tactic(auto, unfolding(crate::specs::States::state_of, crate::specs::States::scope_at))]
    pub fn scope_at(&self, scope: u32) -> Result<Scope, AllocError>
        ensures { IfOk result (λ found. found ≡ scope_at scope (state_of self.now)) }
    {
        self.out.scope_at(scope)
    }

    /// The number of the innermost scope.
    #[tactic(auto, unfolding(crate::specs::States::state_of, crate::specs::States::scope_of))]
    pub fn scope(&self) -> u32
        ensures { result ≡ scope_of (state_of self.now) }
    {
        self.out.scope
    }

    /// How many operands there are.
    #[tactic(auto, unfolding(crate::specs::States::state_of, crate::specs::States::depth_of))]
    pub fn depth(&self) -> u32
        ensures { result ≡ depth_of (state_of self.now) }
    {
        self.out.depth
    }

    /// Whether the next index can be reached.
    #[tactic(auto, unfolding(crate::specs::States::state_of, crate::specs::States::is_live))]
    pub fn is_live(&self) -> bool
        ensures { result ≡ is_live (state_of self.now) }
    {
        self.out.live
    }

    /// How many scopes there are.
    #[tactic(auto, unfolding(crate::specs::States::state_of, crate::specs::States::scope_count))]
    pub fn scope_count(&self) -> usize
        ensures { result ≡ scope_count (state_of self.now) }
    {
        self.out.scopes.len()
    }

    /// What comes next stands in this scope.
    #[tactic(auto, unfolding(crate::specs::States::state_of, crate::specs::States::at_scope))]
    pub fn set_scope(&mut self, scope: u32)
        ensures { state_of self.new ≡ at_scope scope (state_of self.old) }
    {
        self.out.scope = scope;
    }

    /// So many operands there are.
    #[tactic(auto, unfolding(crate::specs::States::state_of, crate::specs::States::at_depth))]
    pub fn set_depth(&mut self, depth: u32)
        ensures { state_of self.new ≡ at_depth depth (state_of self.old) }
    {
        self.out.depth = depth;
    }

    /// Whether the next index can be reached.
    #[tactic(auto, unfolding(crate::specs::States::state_of, crate::specs::States::made_live))]
    pub fn set_live(&mut self, live: bool)
        ensures { state_of self.new ≡ made_live live (state_of self.old) }
    {
        self.out.live = live;
    }

    /// Enters a scope whose way out finds so many operands, and answers its number.
    #[tactic(auto, unfolding(crate::specs::States::state_of, crate::specs::States::entered_at, crate::specs::States::scope_count))]
    pub fn enter_at(&mut self, kind: ScopeKind, depth: u32, at: At) -> Result<u32, AllocError>
        ensures number { IfOk result (λ number. number ≡ scope_count (state_of self.old)) }
        ensures state { OnOk result (state_of self.new ≡ entered_at kind depth at (state_of self.old)) }
    {
        self.out.enter_at(kind, depth, at)
    }

    /// Enters a scope whose way out finds as many operands as that of the scope around.
    #[tactic(auto, unfolding(crate::specs::States::state_of, crate::specs::States::entered, crate::specs::States::scope_count))]
    pub fn enter(&mut self, kind: ScopeKind, at: At) -> Result<u32, AllocError>
        ensures number { IfOk result (λ number. number ≡ scope_count (state_of self.old)) }
        ensures state { OnOk result (state_of self.new ≡ entered kind at (state_of self.old)) }
    {
        self.out.enter(kind, at)
    }

    /// Enters a handler, and answers its number.
    #[tactic(auto, unfolding(crate::specs::States::state_of, crate::specs::States::entered_handler, crate::specs::States::handler_from))]
    pub fn enter_handler(&mut self, at: At) -> Result<u32, AllocError>
        ensures number { IfOk result (λ number. number ≡ handler_from at (state_of self.old)) }
        ensures state { OnOk result (state_of self.new ≡ entered_handler at (state_of self.old)) }
    {
        self.out.enter_handler(at)
    }

    /// Leaves the innermost scope.
    #[tactic(auto, unfolding(crate::specs::States::state_of, crate::specs::States::left))]
    pub fn leave_innermost(&mut self) -> Result<(), AllocError>
        ensures { OnOk result (state_of self.new ≡ left (state_of self.old)) }
    {
        self.out.leave()
    }

    /// Leaves this scope, which is the innermost one.
    #[tactic(auto, unfolding(crate::specs::States::state_of, crate::specs::States::left_scope))]
    pub fn leave_scope(&mut self, scope: u32) -> Result<(), AllocError>
        ensures { OnOk result (state_of self.new ≡ left_scope scope (state_of self.old)) }
    {
        self.out.leave_scope(scope)
    }

    /// A temporary waits until the end of the full-expression.
    #[tactic(auto, unfolding(crate::specs::States::state_of, crate::specs::States::with_temporary))]
    pub fn add_temporary(
        &mut self,
        alloc: Global,
        kind: ScopeKind,
        at: At,
    ) -> Result<(), AllocError>
        ensures { OnOk result (state_of self.new ≡ with_temporary kind at (state_of self.old)) }
    {
        self.out.add_temporary(alloc, kind, at)
    }

    /// The scope of a `try` takes each exception to the next index.
    #[tactic(auto, unfolding(crate::specs::States::state_of, crate::specs::States::caught_all))]
    pub fn catch_all(&mut self, scope: u32) -> Result<(), AllocError>
        ensures { OnOk result (state_of self.new ≡ caught_all scope (state_of self.old)) }
    {
        self.out.catch_all(scope)
    }

    /// The scope of a `try` takes exceptions of this type to the next index.
    #[tactic(auto, unfolding(crate::specs::States::state_of, crate::specs::States::caught_one))]
    pub fn catch_one(&mut self, scope: u32, ty: u32) -> Result<(), AllocError>
        ensures { OnOk result (state_of self.new ≡ caught_one scope ty (state_of self.old)) }
    {
        self.out.catch_one(scope, ty)
    }
}
