//! Expressions without objects.

ghost use Rattle.std.specs.Prelude.{◌≡◌, OnOk};
ghost use Rattle.low_code.specs.Nodes.{node_of};
ghost use Rattle.unwind_lower.specs.States.{state_of};
ghost use Rattle.unwind_lower.specs.Settings.{setting_of};
ghost use Rattle.unwind_lower.specs.Expressions.{way_of, branch_way, local, global, function, class_table, operate, convert, binary, assign, read_old, update, conditional, comma, full, copy_assign, materialize};

use crate::items::{Item, Way};
use crate::lowering::Lowering;
use crate::writing::Writing;
use cpp_tree::below::{At, BinOp, IntKind};
use cpp_tree::{TNode, TNodeId};
use low_code::numbers::{ADDRESS, kind_number, load, operator_number, store_converted};
use low_code::types::is_void;
use low_code::{Owner, ScopeKind};
use std::alloc::AllocError;
use tx_code::Instr;

/// How an expression of this type is run whose value is its kid's, or nothing.
pub fn way_of(node: &TNode) -> Way
    ensures { result ≡ way_of (node_of node.now) }
{
    if is_void(&node.ty) {
        Way::Dropped
    } else {
        Way::Value
    }
}

// How the branches of a conditional are run.
fn branch_way(node: &TNode, way: Way) -> Way
    ensures { result ≡ branch_way (node_of node.now) way }
{
    match way {
        Way::Value => way_of(node),
        Way::Dropped | Way::Into | Way::Copying => way,
    }
}

impl<'a> Lowering<'a> {
    /// The address of an item of the frame.
    #[tactic(auto, unfolding(crate::specs::Expressions::local))]
    pub fn local(&self, w: &mut Writing, place: u32, at: At) -> Result<(), AllocError>
        ensures { OnOk result (state_of w.new ≡ local (setting_of self.now) place at (state_of w.old)) }
    {
        let offset = self.place(place)?;
        w.put(Instr::FrameAddr(offset), at)
    }

    /// The address of a global.
    #[tactic(auto, unfolding(crate::specs::Expressions::global))]
    pub fn global(&self, w: &mut Writing, number: u32, at: At) -> Result<(), AllocError>
        ensures { OnOk result (state_of w.new ≡ global (setting_of self.now) number at (state_of w.old)) }
    {
        let name = self.global_name(w, number)?;
        w.put(Instr::GlobalAddr(name), at)
    }

    /// The address of a function.
    #[tactic(auto, unfolding(crate::specs::Expressions::function))]
    pub fn function(&self, w: &mut Writing, func: u32, at: At) -> Result<(), AllocError>
        ensures { OnOk result (state_of w.new ≡ function (setting_of self.now) func at (state_of w.old)) }
    {
        let name = self.func_name(w, func)?;
        w.put(Instr::FuncAddr(name), at)
    }

    /// The address of a class.
    #[tactic(auto, unfolding(crate::specs::Expressions::class_table))]
    pub fn class_table(&self, w: &mut Writing, class: u32, at: At) -> Result<(), AllocError>
        ensures { OnOk result (state_of w.new ≡ class_table (setting_of self.now) class at (state_of w.old)) }
    {
        let name = self.class_name(w, class)?;
        w.put(Instr::ClassAddr(name), at)
    }

    /// An object of the frame that lives until the end of the full-expression or the call.
    #[tactic(auto, unfolding(crate::specs::Expressions::materialize))]
    pub fn materialize(
        &self,
        w: &mut Writing,
        id: TNodeId,
        node: &TNode,
        place: u32,
    ) -> Result<(), AllocError>
        ensures { OnOk result (state_of w.new ≡ materialize (setting_of self.now) id (node_of node.now) place (state_of w.old)) }
    {
        let address = Instr::FrameAddr(self.place(place)?);
        w.later(Item::Put(address, node.at))?;
        w.later(Item::Made(id))?;
        w.run_kid(node, 0, Way::Into)?;
        w.put(address, node.at)
    }
}

impl Writing {
    /// An instruction on the value of the first kid.
    #[tactic(auto, unfolding(crate::specs::Expressions::operate))]
    pub fn operate(&mut self, node: &TNode, instr: Instr) -> Result<(), AllocError>
        ensures { OnOk result (state_of self.new ≡ operate (node_of node.now) instr (state_of self.old)) }
    {
        self.later(Item::Put(instr, node.at))?;
        self.run_kid(node, 0, Way::Value)
    }

    /// A conversion.
    #[tactic(auto, unfolding(crate::specs::Expressions::convert))]
    pub fn convert(&mut self, node: &TNode, to: IntKind) -> Result<(), AllocError>
        ensures { OnOk result (state_of self.new ≡ convert (node_of node.now) to (state_of self.old)) }
    {
        let to = kind_number(to);
        self.operate(node, Instr::Conv { from: ADDRESS, to })
    }

    /// An operator on two values.
    #[tactic(auto, unfolding(crate::specs::Expressions::binary))]
    pub fn binary(&mut self, node: &TNode, op: BinOp, kind: IntKind) -> Result<(), AllocError>
        ensures { OnOk result (state_of self.new ≡ binary (node_of node.now) op kind (state_of self.old)) }
    {
        let op = operator_number(op);
        let kind = kind_number(kind);
        self.later(Item::Put(Instr::Bin { op, kind }, node.at))?;
        self.run_kid(node, 1, Way::Value)?;
        self.run_kid(node, 0, Way::Value)
    }

    /// `=` on a scalar, which this instruction stores.
    #[tactic(auto, unfolding(crate::specs::Expressions::assign))]
    pub fn assign(&mut self, node: &TNode, store: Instr) -> Result<(), AllocError>
        ensures { OnOk result (state_of self.new ≡ assign (node_of node.now) store (state_of self.old)) }
    {
        self.later(Item::Put(store, node.at))?;
        self.run_kid(node, 1, Way::Value)?;
        self.later(Item::Put(Instr::Dup, node.at))?;
        self.run_kid(node, 0, Way::Value)
    }

    /// `op=`, `++` and `--`. The address, or the old value, lies below what is stored.
    #[tactic(auto, unfolding(crate::specs::Expressions::update))]
    pub fn update(
        &mut self,
        node: &TNode,
        op: BinOp,
        stored: IntKind,
        operation: IntKind,
        volatile: bool,
        old: bool,
    ) -> Result<(), AllocError>
        ensures { OnOk result (state_of self.new ≡ update (node_of node.now) op stored operation volatile old (state_of self.old)) }
    {
        let op = operator_number(op);
        let kind = kind_number(operation);
        self.later(Item::Put(store_converted(stored, volatile), node.at))?;
        self.later(Item::Put(Instr::Bin { op, kind }, node.at))?;
        self.run_kid(node, 1, Way::Value)?;
        self.read_old(load(stored, volatile), old, node.at)?;
        self.later(Item::Put(Instr::Dup, node.at))?;
        self.run_kid(node, 0, Way::Value)
    }

    // The old value is read, and stays below where it is the whole's.
    #[tactic(auto, unfolding(crate::specs::Expressions::read_old))]
    fn read_old(&mut self, load: Instr, old: bool, at: At) -> Result<(), AllocError>
        ensures { OnOk result (state_of self.new ≡ read_old load old at (state_of self.old)) }
    {
        if old {
            self.later(Item::Put(Instr::Over, at))?;
            self.later(Item::Put(Instr::Swap, at))?;
            self.later(Item::Put(load, at))
        } else {
            self.later(Item::Put(load, at))?;
            self.later(Item::Put(Instr::Dup, at))
        }
    }

    /// `? :`, `&&`, `||` and `if`.
    #[tactic(auto, unfolding(crate::specs::Expressions::conditional))]
    pub fn conditional(&mut self, id: TNodeId, node: &TNode, way: Way) -> Result<(), AllocError>
        ensures { OnOk result (state_of self.new ≡ conditional id (node_of node.now) way (state_of self.old)) }
    {
        self.later(Item::Branch(id, branch_way(node, way)))?;
        self.run_kid(node, 0, Way::Value)
    }

    /// An expression whose value is dropped, and another one.
    #[tactic(auto, unfolding(crate::specs::Expressions::comma))]
    pub fn comma(&mut self, node: &TNode, way: Way) -> Result<(), AllocError>
        ensures { OnOk result (state_of self.new ≡ comma (node_of node.now) way (state_of self.old)) }
    {
        self.run_kid(node, 1, way)?;
        self.run_kid(node, 0, Way::Dropped)
    }

    /// An expression at whose end its temporaries are destroyed.
    #[tactic(auto, unfolding(crate::specs::Expressions::full))]
    pub fn full(&mut self, node: &TNode, way: Way) -> Result<(), AllocError>
        ensures { OnOk result (state_of self.new ≡ full (node_of node.now) way (state_of self.old)) }
    {
        self.enter(ScopeKind::Mark(Owner::Full), node.at)?;
        self.later(Item::Close(Owner::Full, node.at))?;
        self.run_kid(node, 0, way)
    }

    /// The implicit copy assignment of a class.
    #[tactic(auto, unfolding(crate::specs::Expressions::copy_assign))]
    pub fn copy_assign(&mut self, node: &TNode) -> Result<(), AllocError>
        ensures { OnOk result (state_of self.new ≡ copy_assign (node_of node.now) (state_of self.old)) }
    {
        self.run_kid(node, 2, Way::Copying)?;
        self.later(Item::Put(Instr::Swap, node.at))?;
        self.later(Item::Put(Instr::Over, node.at))?;
        self.run_kid(node, 1, Way::Value)?;
        self.run_kid(node, 0, Way::Value)
    }
}
