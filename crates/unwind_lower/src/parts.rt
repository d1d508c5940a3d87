//! Objects that are built part by part.

ghost use Rattle.std.specs.Prelude.{◌≡◌, ◌-◌, IfOk, OnOk};
ghost use Rattle.low_code.specs.Nodes.{node_of};
ghost use Rattle.unwind_lower.specs.States.{state_of, depth_of};
ghost use Rattle.unwind_lower.specs.Settings.{setting_of};
ghost use Rattle.unwind_lower.specs.Parts.{pieces, put_part, piece, sources_of, part_waits, part_made, drop_source, close_mark_of_parts, close_part, close_parts};
ghost use Rattle.unwind_lower.specs.Parts.{is_copy, words_above, enter_elements, elements_scope, next_pair, start_element, put_element, make_element, elements};
ghost use Rattle.unwind_lower.specs.Parts.{next_element, leave_element, go_round, element_made};

use crate::items::{Item, Way};
use crate::lowering::Lowering;
use crate::writing::Writing;
use cpp_tree::below::At;
use cpp_tree::{TKind, TNode, TNodeId};
use low_code::{Address, Owner, ScopeKind};
use std::alloc::AllocError;
use tx_code::Instr;

impl Writing {
    /// A class or an array, part by part: its address stays below the parts.
    #[tactic(auto, unfolding(crate::specs::Parts::pieces))]
    pub fn pieces(&mut self, node: &TNode, way: Way) -> Result<(), AllocError>
        ensures { OnOk result (state_of self.new ≡ pieces (node_of node.now) way (state_of self.old)) }
    {
        self.enter(ScopeKind::Mark(Owner::Parts), node.at)?;
        self.later(Item::CloseParts(way, node.at))?;
        self.run_kids(node, 0, way)
    }

    /// A part: its address, and that of what is copied, come on top.
    #[tactic(auto, unfolding(crate::specs::Parts::piece))]
    pub fn piece(
        &mut self,
        id: TNodeId,
        node: &TNode,
        offset: u32,
        way: Way,
    ) -> Result<(), AllocError>
        ensures { OnOk result (state_of self.new ≡ piece id (node_of node.now) offset way (state_of self.old)) }
    {
        self.later(Item::PartMade(id, way))?;
        self.run_kid(node, 0, way)?;
        self.put_part(offset, node.at, way)
    }

    #[tactic(auto, unfolding(crate::specs::Parts::put_part))]
    fn put_part(&mut self, offset: u32, at: At, way: Way) -> Result<(), AllocError>
        ensures { OnOk result (state_of self.new ≡ put_part offset at way (state_of self.old)) }
    {
        match way {
            Way::Into => {
                self.put(Instr::Dup, at)?;
                self.put_offset(offset, at)
            }
            Way::Copying => {
                self.put(Instr::Over, at)?;
                self.put_offset(offset, at)?;
                self.put(Instr::Over, at)?;
                self.put_offset(offset, at)
            }
            Way::Value | Way::Dropped => Err(AllocError),
        }
    }

    /// A part is made: it waits for an exception.
    #[tactic(auto, unfolding(crate::specs::Parts::part_made))]
    pub fn part_made(
        &mut self,
        kind: TKind,
        id: TNodeId,
        node: &TNode,
        way: Way,
    ) -> Result<(), AllocError>
        ensures { OnOk result (state_of self.new ≡ part_made kind id (node_of node.now) way (state_of self.old)) }
    {
        let TKind::Piece { offset } = kind else {
            return Err(AllocError);
        };
        if node.kids.len() < 2 {
            return Ok(());
        }
        self.wait_for_exception(offset, id, node.at, way)
    }

    #[tactic(auto, unfolding(crate::specs::Parts::part_waits))]
    fn wait_for_exception(
        &mut self,
        offset: u32,
        id: TNodeId,
        at: At,
        way: Way,
    ) -> Result<(), AllocError>
        ensures { OnOk result (state_of self.new ≡ part_waits offset id at way (state_of self.old)) }
    {
        let waits = ScopeKind::Waits {
            owner: Owner::Parts,
            always: false,
            address: Address::Word(offset),
            node: id,
            first: 1,
        };
        let depth = self.depth_below(sources_of(way));
        self.enter_at(waits, depth, at)?;
        Ok(())
    }

    // How many operands there are below so many.
    fn depth_below(&self, above: u32) -> u32
        ensures { result ≡ depth_of (state_of self.now) - above }
    {
        self.depth().saturating_sub(above)
    }

    /// A scope of parts that are all made is left; behind the last one their addresses are taken.
    #[tactic(auto, unfolding(crate::specs::Parts::close_parts))]
    pub fn close_parts(&mut self, way: Way, at: At) -> Result<(), AllocError>
        ensures { OnOk result (state_of self.new ≡ close_parts way at (state_of self.old)) }
    {
        let scope = self.scope_at(self.scope())?;
        self.close_part(scope.kind, way, at)
    }

    #[tactic(auto, unfolding(crate::specs::Parts::close_part))]
    fn close_part(&mut self, kind: ScopeKind, way: Way, at: At) -> Result<(), AllocError>
        ensures { OnOk result (state_of self.new ≡ close_part kind way at (state_of self.old)) }
    {
        match kind {
            ScopeKind::Mark(owner) => self.close_mark_of_parts(owner, way, at),
            ScopeKind::Waits { .. } => {
                self.leave_innermost()?;
                self.later(Item::CloseParts(way, at))
            }
            _ => Err(AllocError),
        }
    }

    #[tactic(auto, unfolding(crate::specs::Parts::close_mark_of_parts))]
    fn close_mark_of_parts(&mut self, owner: Owner, way: Way, at: At) -> Result<(), AllocError>
        ensures { OnOk result (state_of self.new ≡ close_mark_of_parts owner way at (state_of self.old)) }
    {
        match owner {
            Owner::Parts => {
                self.leave_innermost()?;
                self.put(Instr::Pop, at)?;
                self.drop_source(way, at)
            }
            _ => Err(AllocError),
        }
    }

    // The address of what was copied is dropped.
    #[tactic(auto, unfolding(crate::specs::Parts::drop_source))]
    fn drop_source(&mut self, way: Way, at: At) -> Result<(), AllocError>
        ensures { OnOk result (state_of self.new ≡ drop_source way at (state_of self.old)) }
    {
        match way {
            Way::Copying => self.put(Instr::Pop, at),
            Way::Value | Way::Dropped | Way::Into => Ok(()),
        }
    }

    // The scope in which an element is made; the scope at hand where elements need no destruction.
    #[tactic(auto, unfolding(crate::specs::Parts::enter_elements, crate::specs::Parts::elements_scope))]
    fn enter_elements(&mut self, id: TNodeId, node: &TNode, way: Way) -> Result<u32, AllocError>
        ensures number { IfOk result (λ number. number ≡ elements_scope (node_of node.now) (state_of self.old)) }
        ensures state { OnOk result (state_of self.new ≡ enter_elements id (node_of node.now) way (state_of self.old)) }
    {
        if node.kids.len() < 2 {
            return Ok(self.scope());
        }
        let copies = is_copy(way);
        let each = ScopeKind::Each { node: id, copies };
        let depth = self.depth_below(words_above(copies));
        self.enter_at(each, depth, node.at)
    }

    // An element is made where the turn of the loop begins at an index.
    #[tactic(auto, unfolding(crate::specs::Parts::make_element))]
    fn make_element(
        &mut self,
        id: TNodeId,
        node: &TNode,
        way: Way,
        top: u32,
    ) -> Result<(), AllocError>
        ensures { OnOk result (state_of self.new ≡ make_element id (node_of node.now) way top (state_of self.old)) }
    {
        let scope = self.enter_elements(id, node, way)?;
        self.later(Item::ElementMade(id, way, top, scope))?;
        self.run_kid(node, 0, way)?;
        self.put_element(way, node.at)
    }

    // The address of the next element comes on top.
    #[tactic(auto, unfolding(crate::specs::Parts::put_element))]
    fn put_element(&mut self, way: Way, at: At) -> Result<(), AllocError>
        ensures { OnOk result (state_of self.new ≡ put_element way at (state_of self.old)) }
    {
        match way {
            Way::Into => self.put(Instr::Over, at),
            Way::Value | Way::Dropped | Way::Copying => Ok(()),
        }
    }

    /// An element is made, and the next one is, if one is left.
    #[tactic(auto, unfolding(crate::specs::Parts::element_made))]
    pub fn element_made(
        &mut self,
        kind: TKind,
        node: &TNode,
        way: Way,
        top: u32,
        scope: u32,
    ) -> Result<(), AllocError>
        ensures { OnOk result (state_of self.new ≡ element_made kind (node_of node.now) way top scope (state_of self.old)) }
    {
        let TKind::Elements { stride, .. } = kind else {
            return Err(AllocError);
        };
        if self.is_live() && self.scope() != scope {
            return Err(AllocError);
        }
        self.leave_element(node, scope)?;
        self.go_round(stride, way, top, node.at)
    }

    // The scope is left in which an element is made, if it has one.
    #[tactic(auto, unfolding(crate::specs::Parts::leave_element))]
    fn leave_element(&mut self, node: &TNode, scope: u32) -> Result<(), AllocError>
        ensures { OnOk result (state_of self.new ≡ leave_element (node_of node.now) scope (state_of self.old)) }
    {
        if node.kids.len() > 1 {
            return self.leave_scope(scope);
        }
        Ok(())
    }

    // The next element is made, if one is left.
    #[tactic(auto, unfolding(crate::specs::Parts::go_round))]
    fn go_round(&mut self, stride: u32, way: Way, top: u32, at: At) -> Result<(), AllocError>
        ensures { OnOk result (state_of self.new ≡ go_round stride way top at (state_of self.old)) }
    {
        self.next_element(stride, way, at)?;
        self.again(top, at)?;
        self.put(Instr::Pop, at)?;
        self.put(Instr::Pop, at)?;
        self.drop_source(way, at)
    }

    // The address on top but one goes on by an element, of which one less is left. In a copy that is done before.
    #[tactic(auto, unfolding(crate::specs::Parts::next_element))]
    fn next_element(&mut self, stride: u32, way: Way, at: At) -> Result<(), AllocError>
        ensures { OnOk result (state_of self.new ≡ next_element stride way at (state_of self.old)) }
    {
        match way {
            Way::Into => {
                self.put(Instr::Swap, at)?;
                self.put_offset(stride, at)?;
                self.put(Instr::Swap, at)?;
                self.put_less(1, at)
            }
            Way::Value | Way::Dropped | Way::Copying => Ok(()),
        }
    }
}

// Whether an object is copied.
fn is_copy(way: Way) -> bool
    ensures { result ≡ is_copy way }
{
    match way {
        Way::Copying => true,
        Way::Value | Way::Dropped | Way::Into => false,
    }
}

// How many words lie on top of what is built when an element is made.
fn words_above(copies: bool) -> u32
    ensures { result ≡ words_above copies }
{
    if copies { 2 } else { 0 }
}

// How many addresses lie above that of the whole.
fn sources_of(way: Way) -> u32
    ensures { result ≡ sources_of way }
{
    match way {
        Way::Copying => 1,
        Way::Value | Way::Dropped | Way::Into => 0,
    }
}

impl<'a> Lowering<'a> {
    /// The elements of an array, by a loop: the address of the next one and how many are left lie on top, in a copy with
    /// the address of what is copied between them.
    #[tactic(auto, unfolding(crate::specs::Parts::elements, crate::specs::Parts::start_elements))]
    pub fn elements(
        &self,
        w: &mut Writing,
        id: TNodeId,
        node: &TNode,
        count: u32,
        stride: u32,
        way: Way,
    ) -> Result<(), AllocError>
        ensures { OnOk result (state_of w.new ≡ elements id (node_of node.now) count stride way (state_of w.old)) }
    {
        if count == 0 {
            return Err(AllocError);
        }
        w.put(Instr::Push(count as u64), node.at)?;
        let top = w.here()?;
        self.start_element(w, stride, way, node.at)?;
        w.make_element(id, node, way, top)
    }

    #[tactic(auto, unfolding(crate::specs::Parts::start_element))]
    fn start_element(
        &self,
        w: &mut Writing,
        stride: u32,
        way: Way,
        at: At,
    ) -> Result<(), AllocError>
        ensures { OnOk result (state_of w.new ≡ start_element stride way at (state_of w.old)) }
    {
        match way {
            Way::Into => Ok(()),
            Way::Copying => self.next_pair(w, stride, at),
            Way::Value | Way::Dropped => Err(AllocError),
        }
    }

    // The addresses of an element and of its source come on top; below them lie those of the next ones and how many are
    // left.
    #[tactic(auto, unfolding(crate::specs::Parts::next_pair))]
    fn next_pair(&self, w: &mut Writing, stride: u32, at: At) -> Result<(), AllocError>
        ensures { OnOk result (state_of w.new ≡ next_pair stride at (state_of w.old)) }
    {
        self.grab(w, at)?;
        w.put_grabbed(0, at)?;
        w.put_offset(stride, at)?;
        w.put_grabbed(1, at)?;
        w.put_offset(stride, at)?;
        w.put_grabbed(2, at)?;
        w.put_less(1, at)?;
        w.put_grabbed(0, at)?;
        w.put_grabbed(1, at)?;
        w.let_go(at)
    }
}
