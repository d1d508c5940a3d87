//! The ways out for exceptions, which stand behind the body.

ghost use Rattle.std.specs.Prelude.{◌≡◌, IfOk, OnOk};
ghost use Rattle.low_code.specs.Nodes.{node_of};
ghost use Rattle.unwind_lower.specs.States.{state_of, zero_jump_from, with_pad, pad_at, scope_count};
ghost use Rattle.unwind_lower.specs.Settings.{setting_of};
ghost use Rattle.unwind_lower.specs.Pads.{is_way_out, scope_behind, start_pad, pad_waiting, pad_handler, leave_behind, go_on_behind, pad_behind, put_built, put_copied, put_built_of};
ghost use Rattle.unwind_lower.specs.Pads.{step_back, destroy_back, destroy_built, pad_elements, pad, pad_of, pads as way_out};

use crate::items::Item;
use crate::lowering::Lowering;
use crate::writing::Writing;
use cpp_tree::below::At;
use cpp_tree::{TKind, TNode, TNodeId};
use low_code::{Jump, Scope, ScopeKind};
use std::alloc::AllocError;
use tx_code::Instr;

// Whether a scope of this kind has a way out of its own.
fn is_way_out(kind: ScopeKind) -> bool
    ensures { result ≡ is_way_out kind }
{
    match kind {
        ScopeKind::Waits { .. }
        | ScopeKind::Each { .. }
        | ScopeKind::Handler
        | ScopeKind::Block(_)
        | ScopeKind::Behind { .. } => true,
        ScopeKind::Function
        | ScopeKind::Mark(_)
        | ScopeKind::Loop
        | ScopeKind::Switch
        | ScopeKind::Try => false,
    }
}

// Which scope the way out of another one leads to, from a handler in it.
fn scope_behind(kind: ScopeKind, parent: u32) -> u32
    ensures { result ≡ scope_behind kind parent }
{
    match kind {
        ScopeKind::Behind {
            block: _,
            next: _,
            outer,
        } => outer,
        _ => parent,
    }
}

impl Writing {
    // The way out of a scope begins at this index.
    #[tactic(auto, unfolding(crate::specs::States::state_of, crate::specs::States::with_pad))]
    fn add_pad(&mut self, index: u32) -> Result<(), AllocError>
        ensures { OnOk result (state_of self.new ≡ with_pad index (state_of self.old)) }
    {
        self.out.pads.push(index)?;
        Ok(())
    }

    // The way out of a scope begins here, in the scope around.
    #[tactic(auto, unfolding(crate::specs::Pads::start_pad))]
    fn start_pad(&mut self, scope: Scope) -> Result<(), AllocError>
        ensures { OnOk result (state_of self.new ≡ start_pad scope (state_of self.old)) }
    {
        let here = self.here()?;
        self.add_pad(here)?;
        self.set_live(true);
        self.set_depth(scope.depth);
        self.set_scope(scope.parent);
        Ok(())
    }

    // An object that waits is destroyed.
    #[tactic(auto, unfolding(crate::specs::Pads::pad_waiting))]
    fn pad_waiting(&mut self, node: TNodeId, first: u32, at: At) -> Result<(), AllocError>
        ensures { OnOk result (state_of self.new ≡ pad_waiting node first at (state_of self.old)) }
    {
        self.later(Item::Resume(at))?;
        self.later(Item::Destroy(node, first))
    }

    // A handler is left.
    #[tactic(auto, unfolding(crate::specs::Pads::pad_handler))]
    fn pad_handler(&mut self, number: u32, parent: u32, at: At) -> Result<(), AllocError>
        ensures { OnOk result (state_of self.new ≡ pad_handler number parent at (state_of self.old)) }
    {
        self.set_scope(number);
        self.put(Instr::EndHandler, at)?;
        self.set_scope(parent);
        self.put(Instr::Resume, at)
    }

    // The way out of a block from a handler in it: the handler is left.
    #[tactic(auto, unfolding(crate::specs::Pads::pad_behind, crate::specs::Pads::leave_behind))]
    fn pad_behind(&mut self, next: u32, outer: u32, at: At) -> Result<(), AllocError>
        ensures { OnOk result (state_of self.new ≡ pad_behind next outer at (state_of self.old)) }
    {
        self.set_scope(outer);
        self.put(Instr::EndHandler, at)?;
        self.go_on_behind(next, at)
    }

    // Then the next way out follows.
    #[tactic(auto, unfolding(crate::specs::Pads::go_on_behind))]
    fn go_on_behind(&mut self, next: u32, at: At) -> Result<(), AllocError>
        ensures { OnOk result (state_of self.new ≡ go_on_behind next at (state_of self.old)) }
    {
        let found = self.scope_at(next)?;
        let target = self.pad_at(next)?;
        self.set_scope(scope_behind(found.kind, found.parent));
        self.put(Instr::Jump(target), at)
    }

    // The index of the way out of a scope.
    #[tactic(auto, unfolding(crate::specs::States::state_of, crate::specs::States::pad_at))]
    fn pad_at(&self, scope: u32) -> Result<u32, AllocError>
        ensures { IfOk result (λ index. index ≡ pad_at scope (state_of self.now)) }
    {
        match self.out.pads.get(scope as usize) {
            Some(index) => Ok(*index),
            None => Err(AllocError),
        }
    }

    // How many elements are built, from how many of so many are left.
    #[tactic(auto, unfolding(crate::specs::Pads::put_built))]
    fn put_built(&mut self, count: u32, at: At) -> Result<(), AllocError>
        ensures { OnOk result (state_of self.new ≡ put_built count at (state_of self.old)) }
    {
        self.put(Instr::Push(count as u64), at)?;
        self.put(Instr::Swap, at)?;
        self.put_difference(at)
    }

    // The same in a copy, in which the one at hand is not built; what is copied is dropped, and the address behind the
    // last element that is built comes below.
    #[tactic(auto, unfolding(crate::specs::Pads::put_copied))]
    fn put_copied(&mut self, others: u32, stride: u32, at: At) -> Result<(), AllocError>
        ensures { OnOk result (state_of self.new ≡ put_copied others stride at (state_of self.old)) }
    {
        self.put_built(others, at)?;
        self.put(Instr::Swap, at)?;
        self.put(Instr::Pop, at)?;
        self.put(Instr::Swap, at)?;
        self.put_less(stride, at)?;
        self.put(Instr::Swap, at)
    }

    // One more element is to be destroyed, or the jump is made.
    #[tactic(auto, unfolding(crate::specs::Pads::step_back))]
    fn step_back(&mut self, stride: u32, at: At) -> Result<Option<Jump>, AllocError>
        ensures made { IfOk result (λ done. done ≡ zero_jump_from (state_of self.old)) }
        ensures state { OnOk result (state_of self.new ≡ step_back stride at (state_of self.old)) }
    {
        let done = self.jump_if_zero(at)?;
        self.put_less(1, at)?;
        self.put(Instr::Swap, at)?;
        self.put_less(stride, at)?;
        self.put(Instr::Swap, at)?;
        self.put(Instr::Over, at)?;
        Ok(done)
    }

    // How many elements are built, in a copy or not.
    #[tactic(auto, unfolding(crate::specs::Pads::put_built_of))]
    fn put_built_of(
        &mut self,
        count: u32,
        stride: u32,
        copies: bool,
        at: At,
    ) -> Result<(), AllocError>
        ensures { OnOk result (state_of self.new ≡ put_built_of count stride copies at (state_of self.old)) }
    {
        if !copies {
            return self.put_built(count, at);
        }
        let Some(others) = count.checked_sub(1) else {
            return Err(AllocError);
        };
        self.put_copied(others, stride, at)
    }
}

impl<'a> Lowering<'a> {
    /// The way out of a scope, and then of those behind it.
    #[tactic(auto, unfolding(crate::specs::Pads::pads))]
    pub fn pads(&self, w: &mut Writing, number: u32) -> Result<(), AllocError>
        ensures { OnOk result (state_of w.new ≡ way_out (setting_of self.now) number (state_of w.old)) }
    {
        if number as usize >= w.scope_count() {
            return Ok(());
        }
        let scope = w.scope_at(number)?;
        let Some(next) = number.checked_add(1) else {
            return Err(AllocError);
        };
        w.later(Item::Pads(next))?;
        self.pad_of(w, scope, number)
    }

    // The way out of a scope, if it has one.
    #[tactic(auto, unfolding(crate::specs::Pads::pad_of))]
    fn pad_of(&self, w: &mut Writing, scope: Scope, number: u32) -> Result<(), AllocError>
        ensures { OnOk result (state_of w.new ≡ pad_of (setting_of self.now) scope number (state_of w.old)) }
    {
        if is_way_out(scope.kind) && scope.live {
            w.start_pad(scope)?;
            return self.pad(w, scope.kind, number, scope.parent, scope.at);
        }
        w.add_pad(0)
    }

    // What is done on the way out of a scope.
    #[tactic(auto, unfolding(crate::specs::Pads::pad))]
    fn pad(
        &self,
        w: &mut Writing,
        kind: ScopeKind,
        number: u32,
        parent: u32,
        at: At,
    ) -> Result<(), AllocError>
        ensures { OnOk result (state_of w.new ≡ pad (setting_of self.now) kind number parent at (state_of w.old)) }
    {
        match kind {
            ScopeKind::Waits {
                owner: _,
                always: _,
                address,
                node,
                first,
            } => {
                w.pad_waiting(node, first, at)?;
                w.put_address(address, at)
            }
            ScopeKind::Each { node, copies } => {
                let node = self.node(node)?;
                self.pad_elements(w, node.kind, node, copies, at)
            }
            ScopeKind::Handler => w.pad_handler(number, parent, at),
            ScopeKind::Behind {
                block: _,
                next,
                outer,
            } => w.pad_behind(next, outer, at),
            _ => w.put(Instr::Resume, at),
        }
    }

    // The elements that are built are destroyed, the last one first.
    #[tactic(auto, unfolding(crate::specs::Pads::pad_elements))]
    fn pad_elements(
        &self,
        w: &mut Writing,
        kind: TKind,
        node: &TNode,
        copies: bool,
        at: At,
    ) -> Result<(), AllocError>
        ensures { OnOk result (state_of w.new ≡ pad_elements (setting_of self.now) kind (node_of node.now) copies at (state_of w.old)) }
    {
        let TKind::Elements { count, stride } = kind else {
            return Err(AllocError);
        };
        w.put_built_of(count, stride, copies, at)?;
        self.destroy_built(w, node, stride, at)
    }

    // The address behind the last element that is built and how many these are lie on top.
    #[tactic(auto, unfolding(crate::specs::Pads::destroy_built))]
    fn destroy_built(
        &self,
        w: &mut Writing,
        node: &TNode,
        stride: u32,
        at: At,
    ) -> Result<(), AllocError>
        ensures { OnOk result (state_of w.new ≡ destroy_built (setting_of self.now) (node_of node.now) stride at (state_of w.old)) }
    {
        let top = w.here()?;
        w.put(Instr::Dup, at)?;
        self.destroy_back(w, node, stride, top, at)
    }

    // The same, in a loop from an index on.
    #[tactic(auto, unfolding(crate::specs::Pads::destroy_back))]
    fn destroy_back(
        &self,
        w: &mut Writing,
        node: &TNode,
        stride: u32,
        top: u32,
        at: At,
    ) -> Result<(), AllocError>
        ensures { OnOk result (state_of w.new ≡ destroy_back (setting_of self.now) (node_of node.now) stride top at (state_of w.old)) }
    {
        let done = w.step_back(stride, at)?;
        self.destroy(w, node, 1)?;
        w.put(Instr::Jump(top), at)?;
        w.bind(done)?;
        w.put(Instr::Resume, at)
    }
}
