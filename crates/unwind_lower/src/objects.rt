//! Objects: initialisers, what waits for its destruction, and destructions.

ghost use Rattle.std.specs.Prelude.{◌≡◌, OnOk};
ghost use Rattle.low_code.specs.Nodes.{node_of};
ghost use Rattle.unwind_lower.specs.States.{state_of};
ghost use Rattle.unwind_lower.specs.Settings.{setting_of};
ghost use Rattle.unwind_lower.specs.Objects.{without_source, store_value, copy_scalar, construct, copy_construct, copy_from, frame_object, waits_in_full, made, init_variable, init_member};
ghost use Rattle.unwind_lower.specs.Objects.{is_local, init_at, init, variable_waits, variable_made, member_made, defer, put_address};
ghost use Rattle.unwind_lower.specs.Objects.{destroy_elements, destroy_some, destroy_row, keep_address, destroy_each, destroy};

use crate::items::{Item, Way};
use crate::kids::kids_from;
use crate::lowering::Lowering;
use crate::writing::Writing;
use cpp_tree::below::{At, IntKind};
use cpp_tree::{TKind, TNode, TNodeId};
use low_code::nodes::kid;
use low_code::numbers::{ADDRESS, load, store};
use low_code::{Address, Owner, ScopeKind};
use std::alloc::AllocError;
use tx_code::Instr;

// Whether it is the address of an item of the frame.
fn is_local(kind: TKind) -> bool
    ensures { result ≡ is_local kind }
{
    matches!(kind, TKind::Local { .. })
}

impl Writing {
    // An initialiser that does not look at what is copied drops its address.
    #[tactic(auto, unfolding(crate::specs::Objects::without_source))]
    fn without_source(&mut self, way: Way, at: At) -> Result<(), AllocError>
        ensures { OnOk result (state_of self.new ≡ without_source way at (state_of self.old)) }
    {
        match way {
            Way::Copying => self.put(Instr::Pop, at),
            Way::Value | Way::Dropped | Way::Into => Ok(()),
        }
    }

    /// A scalar is built of a value.
    #[tactic(auto, unfolding(crate::specs::Objects::store_value))]
    pub fn store_value(&mut self, node: &TNode, store: Instr, way: Way) -> Result<(), AllocError>
        ensures { OnOk result (state_of self.new ≡ store_value (node_of node.now) store way (state_of self.old)) }
    {
        self.without_source(way, node.at)?;
        self.operate(node, store)
    }

    /// A scalar is copied.
    #[tactic(auto, unfolding(crate::specs::Objects::copy_scalar))]
    pub fn copy_scalar(
        &mut self,
        kind: IntKind,
        volatile: bool,
        at: At,
        way: Way,
    ) -> Result<(), AllocError>
        ensures { OnOk result (state_of self.new ≡ copy_scalar kind volatile at (state_of self.old)) }
    {
        if way != Way::Copying {
            return Err(AllocError);
        }
        self.put(load(kind, volatile), at)?;
        self.put(store(kind, volatile), at)
    }

    /// A class object is built by a constructor.
    #[tactic(auto, unfolding(crate::specs::Objects::construct))]
    pub fn construct(&mut self, id: TNodeId, node: &TNode, way: Way) -> Result<(), AllocError>
        ensures { OnOk result (state_of self.new ≡ construct id (node_of node.now) way (state_of self.old)) }
    {
        self.without_source(way, node.at)?;
        self.call_with(id, node, 0, Way::Into)
    }

    /// A copy of the first kid.
    #[tactic(auto, unfolding(crate::specs::Objects::copy_from))]
    pub fn copy_from(&mut self, node: &TNode, way: Way) -> Result<(), AllocError>
        ensures { OnOk result (state_of self.new ≡ copy_from (node_of node.now) way (state_of self.old)) }
    {
        self.without_source(way, node.at)?;
        self.run_kid(node, 1, Way::Copying)?;
        self.run_kid(node, 0, Way::Value)
    }

    // A variable whose object is destroyed at the end of its block.
    #[tactic(auto, unfolding(crate::specs::Objects::init_variable))]
    fn init_variable(&mut self, id: TNodeId, node: &TNode) -> Result<(), AllocError>
        ensures { OnOk result (state_of self.new ≡ init_variable id (node_of node.now) (state_of self.old)) }
    {
        self.later(Item::VariableMade(id))?;
        self.run_kid(node, 1, Way::Into)
    }

    // A base or member that waits for an exception: its address stays.
    #[tactic(auto, unfolding(crate::specs::Objects::init_member))]
    fn init_member(&mut self, id: TNodeId, node: &TNode) -> Result<(), AllocError>
        ensures { OnOk result (state_of self.new ≡ init_member id (node_of node.now) (state_of self.old)) }
    {
        self.later(Item::MemberMade(id))?;
        self.run_kid(node, 1, Way::Into)?;
        self.later(Item::Put(Instr::Dup, node.at))
    }

    // The object at such an address is initialised.
    #[tactic(auto, unfolding(crate::specs::Objects::init_at))]
    fn init_at(&mut self, address: TKind, id: TNodeId, node: &TNode) -> Result<(), AllocError>
        ensures { OnOk result (state_of self.new ≡ init_at address id (node_of node.now) (state_of self.old)) }
    {
        if node.kids.len() < 3 {
            return self.run_kid(node, 1, Way::Into);
        }
        if is_local(address) {
            self.init_variable(id, node)
        } else {
            self.init_member(id, node)
        }
    }

    /// A base or member is made in a constructor: its address stays on top, and it waits for an exception alone.
    #[tactic(auto, unfolding(crate::specs::Objects::member_made))]
    pub fn member_made(&mut self, id: TNodeId, at: At) -> Result<(), AllocError>
        ensures { OnOk result (state_of self.new ≡ member_made id at (state_of self.old)) }
    {
        let waits = ScopeKind::Waits {
            owner: Owner::Block,
            always: false,
            address: Address::Word(0),
            node: id,
            first: 2,
        };
        let depth = self.depth();
        self.enter_at(waits, depth, at)?;
        Ok(())
    }

    /// A base or member of an object that is destroyed waits.
    #[tactic(auto, unfolding(crate::specs::Objects::defer))]
    pub fn defer(&mut self, id: TNodeId, node: &TNode) -> Result<(), AllocError>
        ensures { OnOk result (state_of self.new ≡ defer id (node_of node.now) (state_of self.old)) }
    {
        let waits = ScopeKind::Waits {
            owner: Owner::Block,
            always: true,
            address: Address::Node(kid(node, 0)?),
            node: id,
            first: 1,
        };
        self.enter(waits, node.at)?;
        Ok(())
    }

    /// Puts the address of a waiting object on top, at once or when the node is run.
    #[tactic(auto, unfolding(crate::specs::Objects::put_address))]
    pub fn put_address(&mut self, address: Address, at: At) -> Result<(), AllocError>
        ensures { OnOk result (state_of self.new ≡ put_address address at (state_of self.old)) }
    {
        match address {
            Address::Frame(offset) => self.put(Instr::FrameAddr(offset), at),
            Address::Word(offset) => {
                self.put(Instr::Dup, at)?;
                self.put_offset(offset, at)
            }
            Address::Node(id) => self.later(Item::Run(id, Way::Value)),
        }
    }

    // The address stays for the `Destroy`s that come behind.
    #[tactic(auto, unfolding(crate::specs::Objects::keep_address))]
    fn keep_address(&mut self, behind: &[TNodeId], at: At) -> Result<(), AllocError>
        ensures { OnOk result (state_of self.new ≡ keep_address behind.now at (state_of self.old)) }
    {
        if behind.is_empty() {
            return Ok(());
        }
        self.put(Instr::Dup, at)
    }
}

impl<'a> Lowering<'a> {
    /// A class object is built by its copy constructor.
    #[tactic(auto, unfolding(crate::specs::Objects::copy_construct))]
    pub fn copy_construct(
        &self,
        w: &mut Writing,
        func: u32,
        at: At,
        way: Way,
    ) -> Result<(), AllocError>
        ensures { OnOk result (state_of w.new ≡ copy_construct (setting_of self.now) func at (state_of w.old)) }
    {
        if way != Way::Copying {
            return Err(AllocError);
        }
        self.call_known(w, func, 2, at)
    }

    /// A temporary or an argument object is made.
    #[tactic(auto, unfolding(crate::specs::Objects::made))]
    pub fn made(
        &self,
        w: &mut Writing,
        kind: TKind,
        id: TNodeId,
        node: &TNode,
    ) -> Result<(), AllocError>
        ensures { OnOk result (state_of w.new ≡ made (setting_of self.now) kind id (node_of node.now) (state_of w.old)) }
    {
        let TKind::Materialize { place, argument } = kind else {
            return Err(AllocError);
        };
        if node.kids.len() < 2 {
            return Ok(());
        }
        let offset = self.place(place)?;
        self.wait_in_full(w, argument, offset, id, node.at)
    }

    // An argument object waits until the end of the call, a temporary until that of the full-expression.
    #[tactic(auto, unfolding(crate::specs::Objects::waits_in_full))]
    fn wait_in_full(
        &self,
        w: &mut Writing,
        argument: bool,
        offset: u32,
        id: TNodeId,
        at: At,
    ) -> Result<(), AllocError>
        ensures { OnOk result (state_of w.new ≡ waits_in_full argument offset id at (state_of w.old)) }
    {
        if argument {
            w.enter(frame_object(Owner::Call, offset, id, 1), at)?;
            return Ok(());
        }
        w.add_temporary(self.alloc, frame_object(Owner::Full, offset, id, 1), at)
    }

    /// A variable, or a base or member in a constructor.
    #[tactic(auto, unfolding(crate::specs::Objects::init))]
    pub fn init(&self, w: &mut Writing, id: TNodeId, node: &TNode) -> Result<(), AllocError>
        ensures { OnOk result (state_of w.new ≡ init (setting_of self.now) id (node_of node.now) (state_of w.old)) }
    {
        let address = self.node(kid(node, 0)?)?;
        w.init_at(address.kind, id, node)?;
        w.run_kid(node, 0, Way::Value)
    }

    /// A variable is made: it waits at its place of the frame.
    #[tactic(auto, unfolding(crate::specs::Objects::variable_made))]
    pub fn variable_made(
        &self,
        w: &mut Writing,
        id: TNodeId,
        node: &TNode,
    ) -> Result<(), AllocError>
        ensures { OnOk result (state_of w.new ≡ variable_made (setting_of self.now) id (node_of node.now) (state_of w.old)) }
    {
        let address = self.node(kid(node, 0)?)?;
        self.variable_waits(w, address.kind, id, node.at)
    }

    #[tactic(auto, unfolding(crate::specs::Objects::variable_waits))]
    fn variable_waits(
        &self,
        w: &mut Writing,
        address: TKind,
        id: TNodeId,
        at: At,
    ) -> Result<(), AllocError>
        ensures { OnOk result (state_of w.new ≡ variable_waits (setting_of self.now) address id at (state_of w.old)) }
    {
        let TKind::Local { place } = address else {
            return Err(AllocError);
        };
        let offset = self.place(place)?;
        w.enter(frame_object(Owner::Block, offset, id, 2), at)?;
        Ok(())
    }

    /// The `Destroy`s of a node, from a kid on, at the address on top, which is taken.
    #[tactic(auto, unfolding(crate::specs::Objects::destroy))]
    pub fn destroy(&self, w: &mut Writing, node: &TNode, first: usize) -> Result<(), AllocError>
        ensures { OnOk result (state_of w.new ≡ destroy (setting_of self.now) (node_of node.now) first (state_of w.old)) }
    {
        self.destroy_each(w, kids_from(node, first))
    }

    #[tactic(auto, unfolding(crate::specs::Objects::destroy_each))]
    fn destroy_each(&self, w: &mut Writing, rows: &[TNodeId]) -> Result<(), AllocError>
        ensures { OnOk result (state_of w.new ≡ destroy_each (setting_of self.now) rows.now (state_of w.old)) }
    {
        for (i, id) in rows.iter().enumerate() {
            let row = self.node(*id)?;
            w.keep_address(&rows[i + 1..], row.at)?;
            self.destroy_row(w, row.kind, row.at)?;
        }
        Ok(())
    }

    // One `Destroy`, at the address on top, which is taken.
    #[tactic(auto, unfolding(crate::specs::Objects::destroy_row))]
    fn destroy_row(&self, w: &mut Writing, kind: TKind, at: At) -> Result<(), AllocError>
        ensures { OnOk result (state_of w.new ≡ destroy_row (setting_of self.now) kind at (state_of w.old)) }
    {
        let TKind::Destroy {
            func,
            offset,
            count,
            stride,
        } = kind
        else {
            return Err(AllocError);
        };
        w.put_offset(offset, at)?;
        self.destroy_some(w, func, count, stride, at)
    }

    // So many objects.
    #[tactic(auto, unfolding(crate::specs::Objects::destroy_some))]
    fn destroy_some(
        &self,
        w: &mut Writing,
        func: u32,
        count: u32,
        stride: u32,
        at: At,
    ) -> Result<(), AllocError>
        ensures { OnOk result (state_of w.new ≡ destroy_some (setting_of self.now) func count stride at (state_of w.old)) }
    {
        match count {
            0 => w.put(Instr::Pop, at),
            1 => self.call_known(w, func, 1, at),
            _ => self.destroy_elements(w, func, count, stride, at),
        }
    }

    // The elements of an array, the last one first.
    #[tactic(auto, unfolding(crate::specs::Objects::destroy_elements))]
    fn destroy_elements(
        &self,
        w: &mut Writing,
        func: u32,
        count: u32,
        stride: u32,
        at: At,
    ) -> Result<(), AllocError>
        ensures { OnOk result (state_of w.new ≡ destroy_elements (setting_of self.now) func count stride at (state_of w.old)) }
    {
        w.put(Instr::Push(count as u64), at)?;
        let top = w.here()?;
        w.put_less(1, at)?;
        w.put(Instr::Over, at)?;
        w.put(Instr::Over, at)?;
        w.put(Instr::Push(stride as u64), at)?;
        let multiply = Instr::Bin {
            op: 2,
            kind: ADDRESS,
        };
        w.put(multiply, at)?;
        w.put_sum(at)?;
        self.call_known(w, func, 1, at)?;
        w.again(top, at)?;
        w.put(Instr::Pop, at)?;
        w.put(Instr::Pop, at)
    }
}

// An object at an offset of the frame waits for the `Destroy`s of a node from a kid on.
fn frame_object(owner: Owner, offset: u32, node: TNodeId, first: u32) -> ScopeKind
    ensures { result ≡ frame_object owner offset node first }
{
    ScopeKind::Waits {
        owner,
        always: true,
        address: Address::Frame(offset),
        node,
        first,
    }
}
