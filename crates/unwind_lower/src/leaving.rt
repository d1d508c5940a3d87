//! Scopes are left.

ghost use Rattle.std.specs.Prelude.{◌≡◌, OnOk};
ghost use Rattle.unwind_lower.specs.States.{state_of, left};
ghost use Rattle.unwind_lower.specs.Settings.{setting_of, words_back};
ghost use Rattle.unwind_lower.specs.Leaving.{destroy_waiting, drop_word, close_waiting, close_scope, close, ends_at, end_of, end_scope, destroy_always, destroy_left};
ghost use Rattle.unwind_lower.specs.Leaving.{leave_one, jump_out, leave_all, leave_from, leave, body_ends};

use crate::items::{Item, Leaving};
use crate::lowering::Lowering;
use crate::writing::Writing;
use cpp_tree::TNodeId;
use cpp_tree::below::At;
use low_code::types::gives;
use low_code::{Address, Owner, Scope, ScopeKind, Sort};
use std::alloc::AllocError;
use tx_code::Instr;

impl Writing {
    // A waiting object is destroyed, in the scope around: the `Destroy`s of a node from a kid on.
    #[tactic(auto, unfolding(crate::specs::Leaving::destroy_waiting))]
    fn destroy_waiting(
        &mut self,
        address: Address,
        node: TNodeId,
        first: u32,
        at: At,
    ) -> Result<(), AllocError>
        ensures { OnOk result (state_of self.new ≡ destroy_waiting address node first at (state_of self.old)) }
    {
        self.later(Item::Destroy(node, first))?;
        self.put_address(address, at)
    }

    /// The waiting objects of an owner are destroyed, the last one first, and its scope is left. Objects that wait for an
    /// exception alone are left as they are; a word that stays for one is dropped.
    #[tactic(auto, unfolding(crate::specs::Leaving::close))]
    pub fn close(&mut self, owner: Owner, at: At) -> Result<(), AllocError>
        ensures { OnOk result (state_of self.new ≡ close owner at (state_of self.old)) }
    {
        let scope = self.scope_at(self.scope())?;
        self.close_scope(scope.kind, scope.at, owner, at)
    }

    // The innermost scope is closed; what waits in it was made at the first place.
    #[tactic(auto, unfolding(crate::specs::Leaving::close_scope))]
    fn close_scope(
        &mut self,
        kind: ScopeKind,
        made: At,
        owner: Owner,
        at: At,
    ) -> Result<(), AllocError>
        ensures { OnOk result (state_of self.new ≡ close_scope kind made owner at (state_of self.old)) }
    {
        match kind {
            ScopeKind::Mark(marked) => self.close_mark(marked, owner),
            ScopeKind::Waits {
                owner: _,
                always,
                address,
                node,
                first,
            } => {
                self.leave_innermost()?;
                self.later(Item::Close(owner, at))?;
                self.close_waiting(always, address, node, first, made, at)
            }
            _ => Err(AllocError),
        }
    }

    // What waits in a scope that is closed.
    #[tactic(auto, unfolding(crate::specs::Leaving::close_waiting))]
    fn close_waiting(
        &mut self,
        always: bool,
        address: Address,
        node: TNodeId,
        first: u32,
        made: At,
        at: At,
    ) -> Result<(), AllocError>
        ensures { OnOk result (state_of self.new ≡ close_waiting always address node first made at (state_of self.old)) }
    {
        if always {
            return self.destroy_waiting(address, node, first, made);
        }
        self.drop_word(address, at)
    }

    // The scope is that of the owner's objects.
    fn close_mark(&mut self, marked: Owner, owner: Owner) -> Result<(), AllocError>
        ensures { OnOk result (state_of self.new ≡ left (state_of self.old)) }
    {
        if marked != owner {
            return Err(AllocError);
        }
        self.leave_innermost()
    }

    // The address of an object that waits no more.
    #[tactic(auto, unfolding(crate::specs::Leaving::drop_word))]
    fn drop_word(&mut self, address: Address, at: At) -> Result<(), AllocError>
        ensures { OnOk result (state_of self.new ≡ drop_word address at (state_of self.old)) }
    {
        match address {
            Address::Word(_) => self.put(Instr::Pop, at),
            Address::Frame(_) | Address::Node(_) => Ok(()),
        }
    }

    // The end of a handler or a block.
    #[tactic(auto, unfolding(crate::specs::Leaving::end_scope))]
    fn end_scope(&mut self, kind: ScopeKind, at: At) -> Result<(), AllocError>
        ensures { OnOk result (state_of self.new ≡ end_scope kind at (state_of self.old)) }
    {
        match kind {
            ScopeKind::Handler => self.put(Instr::EndHandler, at),
            ScopeKind::Block(edge) => self.put(end_of(edge), at),
            _ => Ok(()),
        }
    }

    // What waits in a scope that is left is destroyed, if it does not wait for an exception alone.
    #[tactic(auto, unfolding(crate::specs::Leaving::destroy_left))]
    fn destroy_left(&mut self, kind: ScopeKind, at: At) -> Result<(), AllocError>
        ensures { OnOk result (state_of self.new ≡ destroy_left kind at (state_of self.old)) }
    {
        match kind {
            ScopeKind::Waits {
                owner: _,
                always,
                address,
                node,
                first,
            } => self.destroy_always(always, address, node, first, at),
            _ => Ok(()),
        }
    }

    #[tactic(auto, unfolding(crate::specs::Leaving::destroy_always))]
    fn destroy_always(
        &mut self,
        always: bool,
        address: Address,
        node: TNodeId,
        first: u32,
        at: At,
    ) -> Result<(), AllocError>
        ensures { OnOk result (state_of self.new ≡ destroy_always always address node first at (state_of self.old)) }
    {
        if always {
            return self.destroy_waiting(address, node, first, at);
        }
        Ok(())
    }

    // A scope is left, and then the others.
    #[tactic(auto, unfolding(crate::specs::Leaving::leave_one))]
    fn leave_one(
        &mut self,
        scope: Scope,
        leaving: Leaving,
        origin: u32,
        at: At,
    ) -> Result<(), AllocError>
        ensures { OnOk result (state_of self.new ≡ leave_one scope leaving origin at (state_of self.old)) }
    {
        self.end_scope(scope.kind, at)?;
        self.leave_innermost()?;
        self.later(Item::Leave(leaving, origin, at))?;
        self.destroy_left(scope.kind, scope.at)
    }
}

// The instruction that ends a block with this edge.
fn end_of(edge: u8) -> Instr
    ensures { result ≡ end_of edge }
{
    if edge == 6 {
        Instr::EndSync
    } else {
        Instr::End
    }
}

impl<'a> Lowering<'a> {
    /// The innermost scope is left on this way, and then the others, up to what it leads to.
    #[tactic(auto, unfolding(crate::specs::Leaving::leave))]
    pub fn leave(
        &self,
        w: &mut Writing,
        leaving: Leaving,
        origin: u32,
        at: At,
    ) -> Result<(), AllocError>
        ensures { OnOk result (state_of w.new ≡ leave (setting_of self.now) leaving origin at (state_of w.old)) }
    {
        if !w.is_live() {
            return Ok(());
        }
        let scope = w.scope_at(w.scope())?;
        self.leave_from(w, scope, leaving, origin, at)
    }

    #[tactic(auto, unfolding(crate::specs::Leaving::leave_from))]
    fn leave_from(
        &self,
        w: &mut Writing,
        scope: Scope,
        leaving: Leaving,
        origin: u32,
        at: At,
    ) -> Result<(), AllocError>
        ensures { OnOk result (state_of w.new ≡ leave_from (setting_of self.now) scope leaving origin at (state_of w.old)) }
    {
        if ends_at(scope.kind, leaving) {
            let number = w.scope();
            return self.leave_all(w, leaving, number, origin, at);
        }
        w.leave_one(scope, leaving, origin, at)
    }

    // All scopes are left, up to that with this number.
    #[tactic(auto, unfolding(crate::specs::Leaving::leave_all))]
    fn leave_all(
        &self,
        w: &mut Writing,
        leaving: Leaving,
        number: u32,
        origin: u32,
        at: At,
    ) -> Result<(), AllocError>
        ensures { OnOk result (state_of w.new ≡ leave_all (setting_of self.now) leaving number origin at (state_of w.old)) }
    {
        self.jump_out(w, leaving, number, at)?;
        w.set_scope(origin);
        Ok(())
    }

    #[tactic(auto, unfolding(crate::specs::Leaving::jump_out))]
    fn jump_out(
        &self,
        w: &mut Writing,
        leaving: Leaving,
        number: u32,
        at: At,
    ) -> Result<(), AllocError>
        ensures { OnOk result (state_of w.new ≡ jump_out (setting_of self.now) leaving number at (state_of w.old)) }
    {
        match leaving {
            Leaving::Return => w.put(Instr::Ret(self.words_back()), at),
            Leaving::Break => {
                w.leave_innermost()?;
                w.jump_to(number, Sort::Past, at)
            }
            Leaving::Continue => {
                w.leave_innermost()?;
                w.jump_to(number, Sort::Again, at)
            }
        }
    }

    // How many words the function hands back.
    #[tactic(auto, unfolding(crate::specs::Settings::setting_of, crate::specs::Settings::words_back, crate::specs::Settings::gives_of))]
    fn words_back(&self) -> u8
        ensures { result ≡ words_back (setting_of self.now) }
    {
        let func = self.func;
        if gives(func) == 0 { 0 } else { 1 }
    }

    /// The function's body is done.
    #[tactic(auto, unfolding(crate::specs::Leaving::body_ends))]
    pub fn body_ends(&self, w: &mut Writing, at: At) -> Result<(), AllocError>
        ensures { OnOk result (state_of w.new ≡ body_ends (setting_of self.now) at (state_of w.old)) }
    {
        if self.words_back() == 0 {
            return w.put(Instr::Ret(0), at);
        }
        w.put(Instr::Push(0), at)?;
        w.put(Instr::Ret(1), at)
    }
}

// Whether the way leads to this scope.
fn ends_at(kind: ScopeKind, leaving: Leaving) -> bool
    ensures { result ≡ ends_at kind leaving }
{
    match kind {
        ScopeKind::Function => true,
        ScopeKind::Loop => !matches!(leaving, Leaving::Return),
        ScopeKind::Switch => matches!(leaving, Leaving::Break),
        _ => false,
    }
}
