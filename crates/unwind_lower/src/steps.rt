//! What is written for each item.

ghost use Rattle.std.specs.Prelude.{◌≡◌, OnOk};
ghost use Rattle.low_code.specs.Nodes.{node_of};
ghost use Rattle.unwind_lower.specs.States.{state_of};
ghost use Rattle.unwind_lower.specs.Settings.{setting_of};
ghost use Rattle.unwind_lower.specs.Steps.{drop_value, for_value, run_kind, run, written, Writes};

use crate::expressions::way_of;
use crate::items::{Item, Leaving, Way};
use crate::lowering::Lowering;
use crate::writing::Writing;
use cpp_tree::{TKind, TNode, TNodeId};
use low_code::numbers::{load, store};
use low_code::types::is_void;
use std::alloc::AllocError;
use tx_code::Instr;

/// The most items that are written for a body. More count as want of memory.
const MOST_ITEMS: u32 = 0x100_0000;

impl Writing {
    // The value of a node that is run for what it does is dropped.
    #[tactic(auto, unfolding(crate::specs::Steps::drop_value))]
    fn drop_value(&mut self, node: &TNode, way: Way) -> Result<(), AllocError>
        ensures { OnOk result (state_of self.new ≡ drop_value (node_of node.now) way (state_of self.old)) }
    {
        match way {
            Way::Dropped => self.drop_word_of(node),
            Way::Value | Way::Into | Way::Copying => Ok(()),
        }
    }

    #[tactic(auto, unfolding(crate::specs::Steps::drop_value))]
    fn drop_word_of(&mut self, node: &TNode) -> Result<(), AllocError>
        ensures { OnOk result (state_of self.new ≡ drop_value (node_of node.now) Way.Dropped (state_of self.old)) }
    {
        if is_void(&node.ty) {
            return Ok(());
        }
        self.later(Item::Put(Instr::Pop, node.at))
    }
}

// A node that is run for what it does is run for its value.
fn for_value(way: Way) -> Way
    ensures { result ≡ for_value way }
{
    match way {
        Way::Dropped => Way::Value,
        Way::Value | Way::Into | Way::Copying => way,
    }
}

impl<'a> Lowering<'a> {
    /// Writes all that is to be written.
    pub fn write_all(&self, w: &mut Writing) -> Result<(), AllocError>
        ensures { OnOk result (Writes (setting_of self.now) (state_of w.old) (state_of w.new)) }
    {
        for _ in 0..MOST_ITEMS {
            match w.next() {
                Some(item) => self.write(w, item)?,
                None => return Ok(()),
            }
        }
        Err(AllocError)
    }

    #[tactic(auto, unfolding(crate::specs::Steps::written))]
    fn write(&self, w: &mut Writing, item: Item) -> Result<(), AllocError>
        ensures { OnOk result (state_of w.new ≡ written (setting_of self.now) item (state_of w.old)) }
    {
        match item {
            Item::Run(id, way) => self.run(w, id, way),
            Item::Put(instr, at) => w.put(instr, at),
            Item::Branch(id, way) => self.branch(w, self.node(id)?, way),
            Item::Other(other) => w.other(other),
            Item::OtherAgain(other) => w.other_again(other),
            Item::Bind(jump) => w.bind(jump),
            Item::Slot(id, way) => {
                let node = self.node(id)?;
                self.slot(w, node.kind, node.at, way)
            }
            Item::Invoke(id, way) => {
                let node = self.node(id)?;
                self.invoke(w, node.kind, node, way)
            }
            Item::Thrown(id) => self.thrown(w, self.node(id)?),
            Item::Made(id) => {
                let node = self.node(id)?;
                self.made(w, node.kind, id, node)
            }
            Item::PartMade(id, way) => {
                let node = self.node(id)?;
                w.part_made(node.kind, id, node, way)
            }
            Item::VariableMade(id) => self.variable_made(w, id, self.node(id)?),
            Item::MemberMade(id) => {
                let node = self.node(id)?;
                w.member_made(id, node.at)
            }
            Item::Close(owner, at) => w.close(owner, at),
            Item::CloseParts(way, at) => w.close_parts(way, at),
            Item::ElementMade(id, way, top, scope) => {
                let node = self.node(id)?;
                w.element_made(node.kind, node, way, top, scope)
            }
            Item::Destroy(id, first) => self.destroy(w, self.node(id)?, first as usize),
            Item::BodyDone(turn) => w.body_done(self.node(turn.id)?, turn),
            Item::StepDone(turn) => w.step_done(self.node(turn.id)?, turn),
            Item::TestDone(turn) => {
                let node = self.node(turn.id)?;
                w.test_done(turn, node.at)
            }
            Item::Select(id) => self.select(w, self.node(id)?),
            Item::Past(scope) => w.past(scope),
            Item::TryDone(id, scope) => {
                let node = self.node(id)?;
                w.try_done(scope, node.at)
            }
            Item::Handle(id, scope, live) => {
                let node = self.node(id)?;
                self.handle(w, node.kind, node, scope, live)
            }
            Item::HandlerDone(handler, scope, at) => w.handler_done(handler, scope, at),
            Item::BlockDone(scope, instr, at) => w.block_done(scope, instr, at),
            Item::Leave(leaving, origin, at) => self.leave(w, leaving, origin, at),
            Item::BodyEnds(at) => self.body_ends(w, at),
            Item::Pads(scope) => self.pads(w, scope),
            Item::Resume(at) => w.put(Instr::Resume, at),
        }
    }

    #[tactic(auto, unfolding(crate::specs::Steps::run))]
    fn run(&self, w: &mut Writing, id: TNodeId, way: Way) -> Result<(), AllocError>
        ensures { OnOk result (state_of w.new ≡ run (setting_of self.now) id way (state_of w.old)) }
    {
        let node = self.node(id)?;
        w.drop_value(node, way)?;
        self.run_kind(w, node.kind, id, node, for_value(way))
    }

    // A node of this kind.
    #[tactic(auto, unfolding(crate::specs::Steps::run_kind))]
    fn run_kind(
        &self,
        w: &mut Writing,
        kind: TKind,
        id: TNodeId,
        node: &TNode,
        way: Way,
    ) -> Result<(), AllocError>
        ensures { OnOk result (state_of w.new ≡ run_kind (setting_of self.now) kind id (node_of node.now) way (state_of w.old)) }
    {
        match kind {
            TKind::Literal { word } => w.put(Instr::Push(word), node.at),
            TKind::Local { place } => self.local(w, place, node.at),
            TKind::Global { global } => self.global(w, global, node.at),
            TKind::Function { func } => self.function(w, func, node.at),
            TKind::ClassTable { class } => self.class_table(w, class, node.at),
            TKind::Load { kind, volatile } => w.operate(node, load(kind, volatile)),
            TKind::Convert { to } => w.convert(node, to),
            TKind::Retype => w.run_kid(node, 0, way_of(node)),
            TKind::Binary { op, kind } => w.binary(node, op, kind),
            TKind::Conditional => w.conditional(id, node, way),
            TKind::Comma => w.comma(node, way),
            TKind::Assign { kind, volatile } => w.assign(node, store(kind, volatile)),
            TKind::Update {
                op,
                stored,
                operation,
                volatile,
                old,
            } => w.update(node, op, stored, operation, volatile, old),
            TKind::CopyAssign => w.copy_assign(node),
            TKind::Materialize { place, argument: _ } => self.materialize(w, id, node, place),
            TKind::FullExpression => w.full(node, way),
            TKind::Call { func: _ } => w.call_with(id, node, 0, way),
            TKind::VirtualCall {
                func: _,
                class: _,
                slot: _,
                pointer: _,
            } => w.virtual_call(id, node, way),
            TKind::PointerCall => w.pointer_call(id, node, way),
            TKind::Builtin { which: _ } => w.builtin_call(id, node, way),
            TKind::Throw => w.start_throw(id, node),
            TKind::Rethrow => w.put(Instr::Rethrow, node.at),
            TKind::Store { kind, volatile } => w.store_value(node, store(kind, volatile), way),
            TKind::CopyScalar { kind, volatile } => w.copy_scalar(kind, volatile, node.at, way),
            TKind::Construct { func: _ } => w.construct(id, node, way),
            TKind::CopyConstruct { func } => self.copy_construct(w, func, node.at, way),
            TKind::CopyFrom => w.copy_from(node, way),
            TKind::Pieces => w.pieces(node, way),
            TKind::Piece { offset } => w.piece(id, node, offset, way),
            TKind::Elements { count, stride } => self.elements(w, id, node, count, stride, way),
            TKind::Block { subobjects: _ } => w.block(node),
            TKind::Init => self.init(w, id, node),
            TKind::Defer => w.defer(id, node),
            TKind::Loop { test_first } => w.start_loop(id, node, test_first),
            TKind::Switch => w.start_switch(id, node),
            TKind::Case { word: _ } => Ok(()),
            TKind::Default => Ok(()),
            TKind::Break => w.leave_by(Leaving::Break, node.at),
            TKind::Continue => w.leave_by(Leaving::Continue, node.at),
            TKind::Return => w.start_return(node),
            TKind::Try => w.start_try(id, node),
            TKind::Handler { place: _ } => Err(AllocError),
            TKind::Atomic { kind } => w.start_atomic(node, kind),
            TKind::Synchronized => w.start_synchronized(node),
            TKind::Destroy { .. } => Ok(()),
            TKind::Field { .. } => Ok(()),
        }
    }
}
