//! Statements.

ghost use Rattle.std.specs.Prelude.{◌≡◌, drop, IfOk, OnOk};
ghost use Rattle.low_code.specs.Nodes.{node_of};
ghost use Rattle.unwind_lower.specs.States.{state_of, zero_jump_from, jumped_if_zero, scope_count};
ghost use Rattle.unwind_lower.specs.Settings.{setting_of};
ghost use Rattle.unwind_lower.specs.Kids.{kids_from};
ghost use Rattle.unwind_lower.specs.Blocks.{block, edge_number, start_block, start_atomic, start_synchronized, block_done, leave_by, start_return};
ghost use Rattle.unwind_lower.specs.Blocks.{jump_over, jump_over_from, start_body, start_loop, body_done, step_done, test_done};
ghost use Rattle.unwind_lower.specs.Blocks.{start_switch, compared, select_case, case_jump, select_label, label_jump, select_labels, labels_of, is_default, has_default};
ghost use Rattle.unwind_lower.specs.Blocks.{bind_none, label_at, label_of, run_item, run_items, later_items, enter_switch, select, past};

use crate::items::{Item, Leaving, Turn, Way};
use crate::lowering::Lowering;
use crate::writing::Writing;
use cpp_tree::below::{At, BlockKind};
use cpp_tree::{TKind, TNode, TNodeId};
use low_code::nodes::kid;
use low_code::numbers::{ADDRESS, SYNC_EDGE, block_number};
use low_code::{Jump, Owner, ScopeKind, Sort};
use std::alloc::AllocError;
use tx_code::Instr;

// The number of the edge of an atomic block.
fn edge_number(kind: BlockKind) -> u8
    ensures { result ≡ edge_number kind }
{
    match kind {
        BlockKind::NoExcept => 3,
        BlockKind::Commit => 4,
        BlockKind::Cancel => 5,
    }
}

impl Writing {
    /// A compound statement.
    #[tactic(auto, unfolding(crate::specs::Blocks::block))]
    pub fn block(&mut self, node: &TNode) -> Result<(), AllocError>
        ensures { OnOk result (state_of self.new ≡ block (node_of node.now) (state_of self.old)) }
    {
        self.enter(ScopeKind::Mark(Owner::Block), node.at)?;
        self.later(Item::Close(Owner::Block, node.at))?;
        self.run_kids(node, 0, Way::Dropped)
    }

    /// The scopes at hand are left on this way.
    #[tactic(auto, unfolding(crate::specs::Blocks::leave_by))]
    pub fn leave_by(&mut self, leaving: Leaving, at: At) -> Result<(), AllocError>
        ensures { OnOk result (state_of self.new ≡ leave_by leaving at (state_of self.old)) }
    {
        let origin = self.scope();
        self.later(Item::Leave(leaving, origin, at))
    }

    /// `return`.
    #[tactic(auto, unfolding(crate::specs::Blocks::start_return))]
    pub fn start_return(&mut self, node: &TNode) -> Result<(), AllocError>
        ensures { OnOk result (state_of self.new ≡ start_return (node_of node.now) (state_of self.old)) }
    {
        self.leave_by(Leaving::Return, node.at)?;
        self.run_kids(node, 0, Way::Value)
    }

    /// An atomic block.
    #[tactic(auto, unfolding(crate::specs::Blocks::start_atomic))]
    pub fn start_atomic(&mut self, node: &TNode, kind: BlockKind) -> Result<(), AllocError>
        ensures { OnOk result (state_of self.new ≡ start_atomic (node_of node.now) kind (state_of self.old)) }
    {
        self.put(Instr::Begin(block_number(kind)), node.at)?;
        self.start_block(node, edge_number(kind), Instr::End)
    }

    /// A synchronized block.
    #[tactic(auto, unfolding(crate::specs::Blocks::start_synchronized))]
    pub fn start_synchronized(&mut self, node: &TNode) -> Result<(), AllocError>
        ensures { OnOk result (state_of self.new ≡ start_synchronized (node_of node.now) (state_of self.old)) }
    {
        self.put(Instr::BeginSync, node.at)?;
        self.start_block(node, SYNC_EDGE, Instr::EndSync)
    }

    // The body of a block with this edge, which ends with that instruction.
    #[tactic(auto, unfolding(crate::specs::Blocks::start_block))]
    fn start_block(&mut self, node: &TNode, edge: u8, end: Instr) -> Result<(), AllocError>
        ensures { OnOk result (state_of self.new ≡ start_block (node_of node.now) edge end (state_of self.old)) }
    {
        let scope = self.enter(ScopeKind::Block(edge), node.at)?;
        self.later(Item::BlockDone(scope, end, node.at))?;
        self.run_kid(node, 0, Way::Dropped)
    }

    /// The block of this scope ends.
    #[tactic(auto, unfolding(crate::specs::Blocks::block_done))]
    pub fn block_done(&mut self, scope: u32, end: Instr, at: At) -> Result<(), AllocError>
        ensures { OnOk result (state_of self.new ≡ block_done scope end at (state_of self.old)) }
    {
        self.put(end, at)?;
        self.leave_scope(scope)
    }

    /// The body of a loop stands first; where the test comes before it, a jump leads over it.
    #[tactic(auto, unfolding(crate::specs::Blocks::start_loop))]
    pub fn start_loop(
        &mut self,
        id: TNodeId,
        node: &TNode,
        test_first: bool,
    ) -> Result<(), AllocError>
        ensures { OnOk result (state_of self.new ≡ start_loop id (node_of node.now) test_first (state_of self.old)) }
    {
        let first = self.jump_over(node.at, test_first)?;
        self.start_body(id, node, first)
    }

    // The body of a loop, over which a jump leads.
    #[tactic(auto, unfolding(crate::specs::Blocks::start_body))]
    fn start_body(
        &mut self,
        id: TNodeId,
        node: &TNode,
        first: Option<Jump>,
    ) -> Result<(), AllocError>
        ensures { OnOk result (state_of self.new ≡ start_body id (node_of node.now) first (state_of self.old)) }
    {
        let top = self.here()?;
        let scope = self.enter(ScopeKind::Loop, node.at)?;
        self.later(Item::BodyDone(Turn {
            id,
            scope,
            top,
            first,
        }))?;
        self.run_kid(node, 1, Way::Dropped)
    }

    // The jump to the test of a loop. The body behind it can be reached from there.
    #[tactic(auto, unfolding(crate::specs::Blocks::jump_over, crate::specs::Blocks::jump_over_from))]
    fn jump_over(&mut self, at: At, test_first: bool) -> Result<Option<Jump>, AllocError>
        ensures made { IfOk result (λ first. first ≡ jump_over_from test_first (state_of self.old)) }
        ensures state { OnOk result (state_of self.new ≡ jump_over at test_first (state_of self.old)) }
    {
        if !test_first {
            return Ok(None);
        }
        let live = self.is_live();
        let first = self.jump(at)?;
        self.set_live(live);
        Ok(first)
    }

    /// The body of a loop is done, and its step comes.
    #[tactic(auto, unfolding(crate::specs::Blocks::body_done))]
    pub fn body_done(&mut self, node: &TNode, turn: Turn) -> Result<(), AllocError>
        ensures { OnOk result (state_of self.new ≡ body_done (node_of node.now) turn (state_of self.old)) }
    {
        self.leave_scope(turn.scope)?;
        self.bind_all(turn.scope, Sort::Again)?;
        self.later(Item::StepDone(turn))?;
        self.run_kid(node, 2, Way::Dropped)
    }

    /// The step of a loop is done, and its test comes.
    #[tactic(auto, unfolding(crate::specs::Blocks::step_done))]
    pub fn step_done(&mut self, node: &TNode, turn: Turn) -> Result<(), AllocError>
        ensures { OnOk result (state_of self.new ≡ step_done (node_of node.now) turn (state_of self.old)) }
    {
        self.bind(turn.first)?;
        self.later(Item::TestDone(turn))?;
        self.run_kid(node, 0, Way::Value)
    }

    /// The test of a loop lies on top.
    #[tactic(auto, unfolding(crate::specs::Blocks::test_done))]
    pub fn test_done(&mut self, turn: Turn, at: At) -> Result<(), AllocError>
        ensures { OnOk result (state_of self.new ≡ test_done turn at (state_of self.old)) }
    {
        let past = self.jump_if_zero(at)?;
        self.put(Instr::Jump(turn.top), at)?;
        self.bind(past)?;
        self.bind_all(turn.scope, Sort::Past)
    }

    /// A `switch`.
    #[tactic(auto, unfolding(crate::specs::Blocks::start_switch))]
    pub fn start_switch(&mut self, id: TNodeId, node: &TNode) -> Result<(), AllocError>
        ensures { OnOk result (state_of self.new ≡ start_switch id (node_of node.now) (state_of self.old)) }
    {
        self.later(Item::Select(id))?;
        self.run_kid(node, 0, Way::Value)
    }

    // The scopes of a `switch`; answers the outer one's number.
    #[tactic(auto, unfolding(crate::specs::Blocks::enter_switch))]
    fn enter_switch(&mut self, at: At) -> Result<u32, AllocError>
        ensures number { IfOk result (λ number. number ≡ scope_count (state_of self.old)) }
        ensures state { OnOk result (state_of self.new ≡ enter_switch at (state_of self.old)) }
    {
        let scope = self.enter(ScopeKind::Switch, at)?;
        self.enter(ScopeKind::Mark(Owner::Block), at)?;
        Ok(scope)
    }

    // The word on top is compared with that of a label; a jump is made where it is another.
    #[tactic(auto, unfolding(crate::specs::Blocks::compared))]
    fn compare_case(&mut self, word: u64, at: At) -> Result<Option<Jump>, AllocError>
        ensures made { IfOk result (λ next. next ≡ zero_jump_from (compared word at (state_of self.old))) }
        ensures state { OnOk result (state_of self.new ≡ jumped_if_zero at (compared word at (state_of self.old))) }
    {
        self.put(Instr::Dup, at)?;
        self.put(Instr::Push(word), at)?;
        let equal = Instr::Bin {
            op: 14,
            kind: ADDRESS,
        };
        self.put(equal, at)?;
        self.jump_if_zero(at)
    }

    // A jump that is made where the value on top is that of a label; it is taken then.
    #[tactic(auto, unfolding(crate::specs::Blocks::select_case, crate::specs::Blocks::case_jump, crate::specs::Blocks::matched))]
    fn select_case(&mut self, word: u64, at: At) -> Result<Option<Jump>, AllocError>
        ensures made { IfOk result (λ found. found ≡ case_jump word at (state_of self.old)) }
        ensures state { OnOk result (state_of self.new ≡ select_case word at (state_of self.old)) }
    {
        let next = self.compare_case(word, at)?;
        self.put(Instr::Pop, at)?;
        let found = self.jump(at)?;
        self.bind(next)?;
        Ok(found)
    }

    // The jump to what may be a label.
    #[tactic(auto, unfolding(crate::specs::Blocks::select_label, crate::specs::Blocks::label_jump))]
    fn select_label(&mut self, kind: TKind, at: At) -> Result<Option<Jump>, AllocError>
        ensures made { IfOk result (λ label. label ≡ label_jump kind at (state_of self.old)) }
        ensures state { OnOk result (state_of self.new ≡ select_label kind at (state_of self.old)) }
    {
        match kind {
            TKind::Case { word } => self.select_case(word, at),
            _ => Ok(None),
        }
    }

    // The jump that is made where no label has the value leads behind the `switch`, if it has no `default`.
    #[tactic(auto, unfolding(crate::specs::Blocks::bind_none))]
    fn bind_none(&mut self, none: Option<Jump>, has_default: bool) -> Result<(), AllocError>
        ensures { OnOk result (state_of self.new ≡ bind_none none has_default (state_of self.old)) }
    {
        if has_default {
            return Ok(());
        }
        self.later(Item::Bind(none))
    }

    /// The scope of a `switch` or a `try` is left, and its jumps lead behind it.
    #[tactic(auto, unfolding(crate::specs::Blocks::past))]
    pub fn past(&mut self, scope: u32) -> Result<(), AllocError>
        ensures { OnOk result (state_of self.new ≡ past scope (state_of self.old)) }
    {
        let around = self.scope_at(scope)?.parent;
        self.bind_all(scope, Sort::Past)?;
        self.set_scope(around);
        Ok(())
    }
}

// Whether it is the `default` of a `switch`.
fn is_default(kind: TKind) -> bool
    ensures { result ≡ is_default kind }
{
    matches!(kind, TKind::Default)
}

// The jump of an item, if it is there.
fn label_at(labels: &[Option<Jump>], index: usize) -> Option<Jump>
    ensures { result ≡ label_at labels.now index }
{
    match labels.get(index) {
        Some(label) => *label,
        None => None,
    }
}

// The jump to an item of a `switch`, which has this label.
fn label_of(kind: TKind, label: Option<Jump>, none: Option<Jump>) -> Option<Jump>
    ensures { result ≡ label_of kind label none }
{
    if is_default(kind) { none } else { label }
}

impl<'a> Lowering<'a> {
    /// The value of a `switch` lies on top: it is compared with the labels, in their order.
    #[tactic(auto, unfolding(crate::specs::Blocks::select, crate::specs::Blocks::compare_labels))]
    pub fn select(&self, w: &mut Writing, node: &TNode) -> Result<(), AllocError>
        ensures { OnOk result (state_of w.new ≡ select (setting_of self.now) (node_of node.now) (state_of w.old)) }
    {
        let scope = w.enter_switch(node.at)?;
        let labels = self.select_labels(w, &node.kids)?;
        w.put(Instr::Pop, node.at)?;
        self.later_items(w, node, scope, &labels)
    }

    // The items of a `switch` with this scope, to which these jumps lead.
    #[tactic(auto, unfolding(crate::specs::Blocks::later_items))]
    fn later_items(
        &self,
        w: &mut Writing,
        node: &TNode,
        scope: u32,
        labels: &[Option<Jump>],
    ) -> Result<(), AllocError>
        ensures { OnOk result (state_of w.new ≡ later_items (setting_of self.now) (node_of node.now) scope labels.now (state_of w.old)) }
    {
        let none = w.jump(node.at)?;
        w.later(Item::Past(scope))?;
        w.bind_none(none, self.has_default(&node.kids)?)?;
        w.later(Item::Close(Owner::Block, node.at))?;
        self.run_items(w, node, labels, none)
    }

    // The jumps to the items of a `switch`.
    #[tactic(auto, unfolding(crate::specs::Blocks::select_labels, crate::specs::Blocks::labels_of))]
    fn select_labels(
        &self,
        w: &mut Writing,
        items: &[TNodeId],
    ) -> Result<Vec<Option<Jump>>, AllocError>
        ensures labels { IfOk result (λ labels. labels.items ≡ labels_of (setting_of self.now) items.now (state_of w.old)) }
        ensures state { OnOk result (state_of w.new ≡ select_labels (setting_of self.now) items.now (state_of w.old)) }
    {
        let mut labels = Vec::new(self.alloc);
        for id in items {
            let item = self.node(*id)?;
            labels.push(w.select_label(item.kind, item.at)?)?;
        }
        Ok(labels)
    }

    // Whether one of the items of a `switch` is `default`.
    #[tactic(auto, unfolding(crate::specs::Blocks::has_default))]
    fn has_default(&self, items: &[TNodeId]) -> Result<bool, AllocError>
        ensures { IfOk result (λ found. found ≡ has_default (setting_of self.now) items.now) }
    {
        for id in items {
            if is_default(self.node(*id)?.kind) {
                return Ok(true);
            }
        }
        Ok(false)
    }

    // The items of a `switch`, the first kid left out, with the jumps to its labels.
    fn run_items(
        &self,
        w: &mut Writing,
        node: &TNode,
        labels: &[Option<Jump>],
        none: Option<Jump>,
    ) -> Result<(), AllocError>
        ensures { OnOk result (state_of w.new ≡ run_items (setting_of self.now) none (kids_from (node_of node.now) 1) (drop 1 labels.now) (state_of w.old)) }
    {
        let mut index = node.kids.len();
        while index > 1 {
            index -= 1;
            self.run_item(w, kid(node, index)?, label_at(labels, index), none)?;
        }
        Ok(())
    }

    // An item of a `switch`, to which this jump leads, or the other one if it is the `default`.
    #[tactic(auto, unfolding(crate::specs::Blocks::run_item))]
    fn run_item(
        &self,
        w: &mut Writing,
        id: TNodeId,
        label: Option<Jump>,
        none: Option<Jump>,
    ) -> Result<(), AllocError>
        ensures { OnOk result (state_of w.new ≡ run_item (setting_of self.now) none id label (state_of w.old)) }
    {
        let jump = label_of(self.node(id)?.kind, label, none);
        w.later(Item::Run(id, Way::Dropped))?;
        w.later(Item::Bind(jump))
    }
}
