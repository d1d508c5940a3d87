//! Calls.

ghost use Rattle.std.specs.Prelude.{◌≡◌, ◌+◌, IfOk, OnOk};
ghost use Rattle.cpp_types.specs.Typ.{signature_of};
ghost use Rattle.low_code.specs.Nodes.{node_of};
ghost use Rattle.low_code.specs.Types.{word_count as words_of, result_of};
ghost use Rattle.unwind_lower.specs.States.{state_of};
ghost use Rattle.unwind_lower.specs.Settings.{setting_of};
ghost use Rattle.unwind_lower.specs.Calls.{operand, call_with, virtual_call, swap_into, pointer_call, builtin_call, put_grabbed, grab_word, throw_grabbed, grab, let_go};
ghost use Rattle.unwind_lower.specs.Calls.{sink_below_two, sink_slot, slot, call_known, call_found, call_virtual, called_by, call_pointed, call_signature, join, built_in, invoke};

use crate::items::{Item, Way};
use crate::lowering::Lowering;
use crate::writing::Writing;
use cpp_tree::below::{At, FnTy, IntKind};
use cpp_tree::{Builtin, TKind, TNode, TNodeId};
use low_code::nodes::kid;
use low_code::numbers::{ADDRESS, load};
use low_code::types::{called_type, function_text, gives, is_void, member_text, word_count};
use low_code::{Owner, ScopeKind};
use std::alloc::AllocError;
use tx_code::Instr;

// How many words a call passes: with the address of a class result one more.
fn operand(words: usize, way: Way) -> Result<u8, AllocError>
    ensures { IfOk result (λ all. all ≡ operand words way) }
{
    let Ok(words) = u8::try_from(words) else {
        return Err(AllocError);
    };
    match way {
        Way::Into => one_more(words),
        Way::Value | Way::Dropped | Way::Copying => Ok(words),
    }
}

fn one_more(words: u8) -> Result<u8, AllocError>
    ensures { IfOk result (λ all. all ≡ words + 1) }
{
    match words.checked_add(1) {
        Some(all) => Ok(all),
        None => Err(AllocError),
    }
}

// How many words the result of a function of this type is.
#[tactic(auto, using(cpp_types::proofs::Views::signature_view))]
fn result_words(function: &FnTy) -> u32
    ensures { result ≡ words_of (result_of (signature_of function.now)) }
{
    word_count(&function.ret)
}

impl Writing {
    /// The words of a call, which are the kids from one on, and the call, in the scope of the argument objects.
    #[tactic(auto, unfolding(crate::specs::Calls::call_with))]
    pub fn call_with(
        &mut self,
        id: TNodeId,
        node: &TNode,
        first: usize,
        way: Way,
    ) -> Result<(), AllocError>
        ensures { OnOk result (state_of self.new ≡ call_with id (node_of node.now) first way (state_of self.old)) }
    {
        self.enter(ScopeKind::Mark(Owner::Call), node.at)?;
        self.later(Item::Close(Owner::Call, node.at))?;
        self.later(Item::Invoke(id, way))?;
        self.run_kids(node, first, Way::Value)
    }

    /// A call of a virtual function.
    #[tactic(auto, unfolding(crate::specs::Calls::virtual_call))]
    pub fn virtual_call(&mut self, id: TNodeId, node: &TNode, way: Way) -> Result<(), AllocError>
        ensures { OnOk result (state_of self.new ≡ virtual_call id (node_of node.now) way (state_of self.old)) }
    {
        self.call_with(id, node, 1, way)?;
        self.later(Item::Slot(id, way))?;
        self.run_kid(node, 0, Way::Value)
    }

    /// A call through a pointer, which comes below the address of a class result.
    #[tactic(auto, unfolding(crate::specs::Calls::pointer_call))]
    pub fn pointer_call(&mut self, id: TNodeId, node: &TNode, way: Way) -> Result<(), AllocError>
        ensures { OnOk result (state_of self.new ≡ pointer_call id (node_of node.now) way (state_of self.old)) }
    {
        self.call_with(id, node, 1, way)?;
        self.swap_into(node.at, way)?;
        self.run_kid(node, 0, Way::Value)
    }

    #[tactic(auto, unfolding(crate::specs::Calls::swap_into))]
    fn swap_into(&mut self, at: At, way: Way) -> Result<(), AllocError>
        ensures { OnOk result (state_of self.new ≡ swap_into at way (state_of self.old)) }
    {
        match way {
            Way::Into => self.later(Item::Put(Instr::Swap, at)),
            Way::Value | Way::Dropped | Way::Copying => Ok(()),
        }
    }

    /// A call of a function that needs no declaration.
    #[tactic(auto, unfolding(crate::specs::Calls::builtin_call))]
    pub fn builtin_call(&mut self, id: TNodeId, node: &TNode, way: Way) -> Result<(), AllocError>
        ensures { OnOk result (state_of self.new ≡ builtin_call id (node_of node.now) way (state_of self.old)) }
    {
        self.later(Item::Invoke(id, way))?;
        self.run_kids(node, 0, Way::Value)
    }

    // Calls the function of this type whose address lies below the words.
    #[tactic(auto, unfolding(crate::specs::Calls::call_found))]
    fn call_found(&mut self, ty: u32, words: u8, leaves: u32, at: At) -> Result<(), AllocError>
        ensures { OnOk result (state_of self.new ≡ call_found ty words leaves at (state_of self.old)) }
    {
        let call = Instr::CallIndirect { ty, words };
        self.put_call(call, at, words as u32 + 1, leaves)
    }

    // The function that needs no declaration is called.
    #[tactic(auto, unfolding(crate::specs::Calls::built_in))]
    fn built_in(&mut self, node: &TNode, which: Builtin) -> Result<(), AllocError>
        ensures { OnOk result (state_of self.new ≡ built_in (node_of node.now) which (state_of self.old)) }
    {
        match which {
            Builtin::PutChar => self.put(Instr::Out, node.at),
            Builtin::GetChar => self.put(Instr::Inp, node.at),
            Builtin::Spawn => self.put(Instr::Spawn, node.at),
            Builtin::Abort => self.put(Instr::Abort, node.at),
            Builtin::Join => self.join(node),
        }
    }

    // Where a join has a value, this is 0.
    #[tactic(auto, unfolding(crate::specs::Calls::join))]
    fn join(&mut self, node: &TNode) -> Result<(), AllocError>
        ensures { OnOk result (state_of self.new ≡ join (node_of node.now) (state_of self.old)) }
    {
        self.put(Instr::Join, node.at)?;
        if is_void(&node.ty) {
            return Ok(());
        }
        self.put(Instr::Push(0), node.at)
    }

    /// One of the words that were taken.
    #[tactic(auto, unfolding(crate::specs::Calls::put_grabbed))]
    pub fn put_grabbed(&mut self, index: u8, at: At) -> Result<(), AllocError>
        ensures { OnOk result (state_of self.new ≡ put_grabbed index at (state_of self.old)) }
    {
        let Some(offset) = index.checked_mul(8) else {
            return Err(AllocError);
        };
        let kind = ADDRESS;
        self.put(Instr::GetException { offset, kind }, at)
    }

    // A word goes into the exception that is made.
    #[tactic(auto, unfolding(crate::specs::Calls::grab_word))]
    fn grab_word(&mut self, offset: u8, at: At) -> Result<(), AllocError>
        ensures { OnOk result (state_of self.new ≡ grab_word offset at (state_of self.old)) }
    {
        let kind = ADDRESS;
        self.put(Instr::PutException { offset, kind }, at)
    }

    // The exception that is made is thrown and taken at once.
    #[tactic(auto, unfolding(crate::specs::Calls::throw_grabbed))]
    fn throw_grabbed(&mut self, at: At) -> Result<(), AllocError>
        ensures { OnOk result (state_of self.new ≡ throw_grabbed at (state_of self.old)) }
    {
        let live = self.is_live();
        let depth = self.depth();
        let scope = self.enter_at(ScopeKind::Try, depth, at)?;
        self.put(Instr::Throw, at)?;
        self.leave_innermost()?;
        self.set_live(live);
        self.catch_all(scope)?;
        self.enter_handler(at)?;
        Ok(())
    }

    /// Leaves that handler.
    #[tactic(auto, unfolding(crate::specs::Calls::let_go))]
    pub fn let_go(&mut self, at: At) -> Result<(), AllocError>
        ensures { OnOk result (state_of self.new ≡ let_go at (state_of self.old)) }
    {
        self.put(Instr::EndHandler, at)?;
        self.leave_innermost()
    }
}

impl<'a> Lowering<'a> {
    /// The object of a virtual call lies on top, above the address of a class result: the address of the function that its
    /// class has in the slot comes below both.
    #[tactic(auto, unfolding(crate::specs::Calls::slot, crate::specs::Calls::put_slot))]
    pub fn slot(&self, w: &mut Writing, kind: TKind, at: At, way: Way) -> Result<(), AllocError>
        ensures { OnOk result (state_of w.new ≡ slot (setting_of self.now) kind at way (state_of w.old)) }
    {
        let TKind::VirtualCall {
            class,
            slot,
            pointer,
            ..
        } = kind
        else {
            return Err(AllocError);
        };
        let class = self.class_name(w, class)?;
        w.put(Instr::Dup, at)?;
        w.put_offset(pointer, at)?;
        w.put(load(IntKind::ULong, false), at)?;
        w.put(Instr::Slot { class, slot }, at)?;
        self.sink_slot(w, at, way)
    }

    // The address on top comes below the object, and below the address of a class result.
    #[tactic(auto, unfolding(crate::specs::Calls::sink_slot))]
    fn sink_slot(&self, w: &mut Writing, at: At, way: Way) -> Result<(), AllocError>
        ensures { OnOk result (state_of w.new ≡ sink_slot at way (state_of w.old)) }
    {
        match way {
            Way::Into => self.sink_below_two(w, at),
            Way::Value | Way::Dropped | Way::Copying => w.put(Instr::Swap, at),
        }
    }

    #[tactic(auto, unfolding(crate::specs::Calls::sink_below_two))]
    fn sink_below_two(&self, w: &mut Writing, at: At) -> Result<(), AllocError>
        ensures { OnOk result (state_of w.new ≡ sink_below_two at (state_of w.old)) }
    {
        self.grab(w, at)?;
        w.put_grabbed(2, at)?;
        w.put_grabbed(0, at)?;
        w.put_grabbed(1, at)?;
        w.let_go(at)
    }

    /// The words of a call lie on top.
    #[tactic(auto, unfolding(crate::specs::Calls::invoke))]
    pub fn invoke(
        &self,
        w: &mut Writing,
        kind: TKind,
        node: &TNode,
        way: Way,
    ) -> Result<(), AllocError>
        ensures { OnOk result (state_of w.new ≡ invoke (setting_of self.now) kind (node_of node.now) way (state_of w.old)) }
    {
        let words = operand(node.kids.len(), way)?;
        match kind {
            TKind::Call { func } => self.call_known(w, func, words, node.at),
            TKind::Construct { func } => self.call_known(w, func, words, node.at),
            TKind::VirtualCall { func, .. } => self.call_virtual(w, func, words, node.at),
            TKind::PointerCall => self.call_pointed(w, node, words),
            TKind::Builtin { which } => w.built_in(node, which),
            _ => Err(AllocError),
        }
    }

    /// Calls a function of the unit.
    #[tactic(auto, unfolding(crate::specs::Calls::call_known))]
    pub fn call_known(
        &self,
        w: &mut Writing,
        func: u32,
        words: u8,
        at: At,
    ) -> Result<(), AllocError>
        ensures { OnOk result (state_of w.new ≡ call_known (setting_of self.now) func words at (state_of w.old)) }
    {
        let found = self.func_at(func)?;
        let func = self.name(w, &found.symbol)?;
        let call = Instr::Call { func, words };
        w.put_call(call, at, words as u32, gives(found))
    }

    // Calls a function of the unit by the address that lies below the words.
    #[tactic(auto, unfolding(crate::specs::Calls::call_virtual, crate::specs::Settings::setting_of))]
    fn call_virtual(&self, w: &mut Writing, func: u32, words: u8, at: At) -> Result<(), AllocError>
        ensures { OnOk result (state_of w.new ≡ call_virtual (setting_of self.now) func words at (state_of w.old)) }
    {
        let program = self.program;
        let found = self.func_at(func)?;
        let text = member_text(self.alloc, found, &program.classes)?;
        let ty = self.name(w, &text)?;
        w.call_found(ty, words, gives(found), at)
    }

    // What the pointer points to that is the first kid.
    fn called(&self, node: &TNode) -> Result<&'a FnTy, AllocError>
        ensures { IfOk result (λ f. signature_of f.now ≡ called_by (setting_of self.now) (node_of node.now)) }
    {
        let pointer = self.node(kid(node, 0)?)?;
        let function = called_type(&pointer.ty)?;
        Ok(function)
    }

    // Calls through that pointer, which lies below the words: the kids have one more than these.
    #[tactic(auto, unfolding(crate::specs::Calls::call_pointed))]
    fn call_pointed(&self, w: &mut Writing, node: &TNode, kids: u8) -> Result<(), AllocError>
        ensures { OnOk result (state_of w.new ≡ call_pointed (setting_of self.now) (node_of node.now) kids (state_of w.old)) }
    {
        self.call_signature(w, self.called(node)?, kids, node.at)
    }

    // Calls a function of this type, with one word less than there are kids.
    #[tactic(auto, unfolding(crate::specs::Calls::call_signature, crate::specs::Settings::function_text, crate::specs::Settings::setting_of))]
    fn call_signature(
        &self,
        w: &mut Writing,
        function: &FnTy,
        kids: u8,
        at: At,
    ) -> Result<(), AllocError>
        ensures { OnOk result (state_of w.new ≡ call_signature (setting_of self.now) (signature_of function.now) kids at (state_of w.old)) }
    {
        let program = self.program;
        let text = function_text(self.alloc, function, &program.classes)?;
        let ty = self.name(w, &text)?;
        let Some(words) = kids.checked_sub(1) else {
            return Err(AllocError);
        };
        w.call_found(ty, words, result_words(function), at)
    }

    /// Takes the three words on top into an exception that is thrown and taken at once: in its handler they can be had in
    /// any order.
    #[tactic(auto, unfolding(crate::specs::Calls::grab))]
    pub fn grab(&self, w: &mut Writing, at: At) -> Result<(), AllocError>
        ensures { OnOk result (state_of w.new ≡ grab at (state_of w.old)) }
    {
        let name = self.name(w, b"int")?;
        w.put(Instr::NewException(name), at)?;
        w.grab_word(16, at)?;
        w.grab_word(8, at)?;
        w.grab_word(0, at)?;
        w.throw_grabbed(at)
    }
}
