//! Bodies under construction.

ghost use Rattle.std.specs.Prelude.{◌≡◌, ◌<◌, length, slice_get, Some, IfOk, OnOk};
ghost use Rattle.tx_code.specs.declared.instr.Instr.TheVariants.{Jump as JumpTo, JumpZero as JumpWhereZero};
ghost use Rattle.cpp_tree.specs.cpp_types.declared.classes.At.{At as AtPlace};
ghost use Rattle.low_code.specs.declared.scopes.ScopeKind.{ScopeKind as KindOfScope};
ghost use Rattle.low_code.specs.Writer.{body_of, begun, scope_in, written, put, put_call, put_sum, put_difference, put_offset, put_less, opened, aimed_instr, aimed_at, bound, jumped_to, same_sort, leads_to, bound_there, bound_all, repeated, made, added, entered_as, entered_at, entered, left, left_scope, outer_edge, behind_scope, linked, behind_one, behind_from, behind, behind_edge, entered_handler, at_scope, entered_all, with_temporary, caught_as, caught_all, caught_one};

use crate::effects::{effect, ends};
use crate::numbers::ADDRESS;
use crate::scopes::{
    Scope, ScopeKind, block_of, edge_within, is_full, is_inner, led_to, opens_atomic, rows_within,
};
use cpp_tree::below::At;
use std::alloc::{AllocError, Global};
use tx_code::Instr;

/// The most instructions of a body. More count as want of memory.
const MOST: usize = 0x100_0000;

/// An instruction, the place in the source that it stems from, and its scope.
#[derive(Clone, Copy)]
pub struct LowInstr {
    pub instr: Instr,
    pub at: At,
    pub scope: u32,
}

/// A jump whose target is not yet known, and what there is where it leads to.
#[derive(Clone, Copy)]
pub struct Jump {
    pub index: u32,
    pub scope: u32,
    pub depth: u32,
}

/// Which place of a scope a jump leads to.
#[derive(Clone, Copy, Debug, PartialEq, Eq)]
pub enum Sort {
    /// Behind it.
    Past,
    /// The next turn of a loop.
    Again,
}

/// A jump to a place of a scope.
#[derive(Clone, Copy)]
pub struct Pending {
    pub jump: Jump,
    pub scope: u32,
    pub sort: Sort,
}

/// What a `try` catches: `what` and `ty` as those of a row.
#[derive(Clone, Copy)]
pub struct Catch {
    pub scope: u32,
    pub target: u32,
    pub what: u8,
    pub ty: u32,
}

/// A body under construction.
#[derive(Drop)]
pub struct Writer {
    pub code: Vec<LowInstr>,
    pub scopes: Vec<Scope>,
    pub catches: Vec<Catch>,
    /// The index of each scope's way out for exceptions, 0 where it has none.
    pub pads: Vec<u32>,
    /// The jumps to places of scopes that are still to come, and those that came.
    pub pending: Vec<Pending>,
    /// The scope of the next instruction.
    pub scope: u32,
    /// How many operands there are.
    pub depth: u32,
    /// Whether the next index can be reached. Where it cannot, nothing is written.
    pub live: bool,
}

// The jump instruction with its target.
fn aimed(target: u32, instr: Instr) -> Instr
    ensures { result ≡ aimed_instr target instr }
{
    match instr {
        Instr::JumpZero(_) => Instr::JumpZero(target),
        _ => Instr::Jump(target),
    }
}

// Whether two places of a scope are one.
fn is_same(sort: Sort, other: Sort) -> bool
    ensures { result ≡ same_sort sort other }
{
    match (sort, other) {
        (Sort::Past, Sort::Past) => true,
        (Sort::Again, Sort::Again) => true,
        _ => false,
    }
}

// Whether the jump is one to that place of the scope.
fn is_to(pending: Pending, scope: u32, sort: Sort) -> bool
    ensures { result ≡ leads_to scope sort pending }
{
    pending.scope == scope && is_same(pending.sort, sort)
}

impl Writer {
    /// A body without instructions, which begins with so many operands.
    pub fn new(alloc: Global, depth: u32, at: At) -> Result<Writer, AllocError>
        ensures { IfOk result (λ w. body_of w ≡ begun depth at) }
    {
        let mut scopes = Vec::new(alloc);
        scopes.push(Scope {
            kind: ScopeKind::Function,
            parent: 0,
            depth: 0,
            rows: 0,
            edge: 0,
            atomic: false,
            live: true,
            at,
        })?;
        Ok(Writer {
            code: Vec::new(alloc),
            scopes,
            catches: Vec::new(alloc),
            pads: Vec::new(alloc),
            pending: Vec::new(alloc),
            scope: 0,
            depth,
            live: true,
        })
    }

    /// The index of the next instruction.
    pub fn here(&self) -> Result<u32, AllocError>
        ensures { IfOk result (λ index. index ≡ length self.now.code.items) }
    {
        let index = self.code.len();
        if index >= MOST {
            return Err(AllocError);
        }
        Ok(index as u32)
    }

    // Writes an instruction that takes and leaves so many operands.
    fn write(&mut self, instr: Instr, at: At, takes: u32, leaves: u32) -> Result<(), AllocError>
        ensures { OnOk result (body_of self.new ≡ written instr at takes leaves (body_of self.old)) }
    {
        if !self.live {
            return Ok(());
        }
        self.here()?;
        let Some(kept) = self.depth.checked_sub(takes) else {
            return Err(AllocError);
        };
        let Some(depth) = kept.checked_add(leaves) else {
            return Err(AllocError);
        };
        let scope = self.scope_at(self.scope)?.rows;
        self.code.push(LowInstr { instr, at, scope })?;
        self.depth = depth;
        self.live = !ends(instr);
        Ok(())
    }

    /// Writes an instruction that is no call.
    pub fn put(&mut self, instr: Instr, at: At) -> Result<(), AllocError>
        ensures { OnOk result (body_of self.new ≡ put instr at (body_of self.old)) }
    {
        let (takes, leaves) = effect(instr);
        self.write(instr, at, takes, leaves)
    }

    /// Writes a call that takes and hands back so many words.
    pub fn put_call(
        &mut self,
        instr: Instr,
        at: At,
        takes: u32,
        leaves: u32,
    ) -> Result<(), AllocError>
        ensures { OnOk result (body_of self.new ≡ put_call instr at takes leaves (body_of self.old)) }
    {
        self.write(instr, at, takes, leaves)
    }

    // A jump, whose target is still to be given.
    fn open_jump(&mut self, instr: Instr, at: At) -> Result<Option<Jump>, AllocError>
        ensures made { IfOk result (λ made. made ≡ opened instr (body_of self.old)) }
        ensures body { OnOk result (body_of self.new ≡ put instr at (body_of self.old)) }
    {
        if !self.live {
            return Ok(None);
        }
        let index = self.here()?;
        self.put(instr, at)?;
        Ok(Some(Jump {
            index,
            scope: self.scope,
            depth: self.depth,
        }))
    }

    /// A jump to a place that is still to come; `None` where no instruction can be reached.
    pub fn jump(&mut self, at: At) -> Result<Option<Jump>, AllocError>
        ensures made { IfOk result (λ made. made ≡ opened (JumpTo 0) (body_of self.old)) }
        ensures body { OnOk result (body_of self.new ≡ put (JumpTo 0) at (body_of self.old)) }
    {
        self.open_jump(Instr::Jump(0), at)
    }

    /// A jump that takes a word and is made where it is 0.
    pub fn jump_if_zero(&mut self, at: At) -> Result<Option<Jump>, AllocError>
        ensures made { IfOk result (λ made. made ≡ opened (JumpWhereZero 0) (body_of self.old)) }
        ensures body { OnOk result (body_of self.new ≡ put (JumpWhereZero 0) at (body_of self.old)) }
    {
        self.open_jump(Instr::JumpZero(0), at)
    }

    // The jump at an index leads to the next index.
    fn aim(&mut self, index: u32) -> Result<(), AllocError>
        ensures { OnOk result (body_of self.new ≡ aimed_at index (body_of self.old)) }
    {
        let target = self.here()?;
        let index = index as usize;
        let Some(found) = self.code.get(index) else {
            return Err(AllocError);
        };
        let low = LowInstr {
            instr: aimed(target, found.instr),
            at: found.at,
            scope: found.scope,
        };
        self.code[index] = low;
        Ok(())
    }

    /// The next index is where this jump leads to.
    pub fn bind(&mut self, jump: Option<Jump>) -> Result<(), AllocError>
        ensures { OnOk result (body_of self.new ≡ bound jump (body_of self.old)) }
    {
        let Some(jump) = jump else {
            return Ok(());
        };
        self.aim(jump.index)?;
        self.scope = jump.scope;
        self.depth = jump.depth;
        self.live = true;
        Ok(())
    }

    /// A jump to a place of a scope that is still to come, from that scope itself.
    pub fn jump_to(&mut self, scope: u32, sort: Sort, at: At) -> Result<(), AllocError>
        ensures { OnOk result (body_of self.new ≡ jumped_to scope sort at (body_of self.old)) }
    {
        if let Some(jump) = self.jump(at)? {
            self.pending.push(Pending { jump, scope, sort })?;
        }
        Ok(())
    }

    // A jump that waits to be bound.
    fn pending_at(&self, index: usize) -> Result<Pending, AllocError>
        ensures { IfOk result (λ found. slice_get self.now.pending.items index ≡ Some found) }
    {
        match self.pending.get(index) {
            Some(found) => Ok(*found),
            None => Err(AllocError),
        }
    }

    // The next index is where this jump leads to, if it is one to that place of the scope.
    fn bind_there(&mut self, pending: Pending, scope: u32, sort: Sort) -> Result<(), AllocError>
        ensures { OnOk result (body_of self.new ≡ bound_there scope sort (body_of self.old) pending) }
    {
        if is_to(pending, scope, sort) {
            self.bind(Some(pending.jump))
        } else {
            Ok(())
        }
    }

    /// The next index is that place of the scope.
    pub fn bind_all(&mut self, scope: u32, sort: Sort) -> Result<(), AllocError>
        ensures { OnOk result (body_of self.new ≡ bound_all scope sort (body_of self.old)) }
    {
        let count = self.pending.len();
        for i in 0..count {
            let pending = self.pending_at(i)?;
            self.bind_there(pending, scope, sort)?;
        }
        Ok(())
    }

    /// The scope with this number.
    pub fn scope_at(&self, scope: u32) -> Result<Scope, AllocError>
        ensures is { IfOk result (λ found. found ≡ scope_in (body_of self.now) scope) }
        ensures within { OnOk result (scope < length self.now.scopes.items) }
    {
        match self.scopes.get(scope as usize) {
            Some(found) => Ok(*found),
            None => Err(AllocError),
        }
    }

    // The number that the next scope gets.
    fn next_number(&self) -> Result<u32, AllocError>
        ensures { IfOk result (λ number. number ≡ length self.now.scopes.items) }
    {
        match u32::try_from(self.scopes.len()) {
            Ok(number) => Ok(number),
            Err(_) => Err(AllocError),
        }
    }

    // Adds a scope, and answers its number.
    fn add(&mut self, scope: Scope) -> Result<u32, AllocError>
        ensures number { IfOk result (λ number. number ≡ length self.old.scopes.items) }
        ensures body { OnOk result (body_of self.new ≡ added scope (body_of self.old)) }
    {
        let number = self.next_number()?;
        self.scopes.push(scope)?;
        Ok(number)
    }

    // Adds a scope and enters it, and answers its number.
    fn enter_as(&mut self, scope: Scope) -> Result<u32, AllocError>
        ensures number { IfOk result (λ number. number ≡ length self.old.scopes.items) }
        ensures body { OnOk result (body_of self.new ≡ entered_as scope (body_of self.old)) }
    {
        let number = self.add(scope)?;
        self.scope = number;
        Ok(number)
    }

    // The scope that would have the next number, in a parent.
    fn made(&self, kind: ScopeKind, parent: u32, depth: u32, at: At) -> Result<Scope, AllocError>
        ensures { IfOk result (λ scope. scope ≡ made kind parent depth at (body_of self.now)) }
    {
        let around = self.scope_at(parent)?;
        let number = self.next_number()?;
        Ok(Scope {
            kind,
            parent,
            depth,
            rows: rows_within(kind, number, around.rows),
            edge: edge_within(kind, number, around.edge),
            atomic: opens_atomic(kind) || around.atomic,
            live: self.live,
            at,
        })
    }

    /// Enters a scope whose way out finds so many operands, and answers its number.
    pub fn enter_at(&mut self, kind: ScopeKind, depth: u32, at: At) -> Result<u32, AllocError>
        ensures number { IfOk result (λ number. number ≡ length self.old.scopes.items) }
        ensures body { OnOk result (body_of self.new ≡ entered_at kind depth at (body_of self.old)) }
    {
        let scope = self.made(kind, self.scope, depth, at)?;
        self.enter_as(scope)
    }

    /// Enters a scope whose way out finds as many operands as that of the scope around.
    pub fn enter(&mut self, kind: ScopeKind, at: At) -> Result<u32, AllocError>
        ensures number { IfOk result (λ number. number ≡ length self.old.scopes.items) }
        ensures body { OnOk result (body_of self.new ≡ entered kind at (body_of self.old)) }
    {
        let depth = self.scope_at(self.scope)?.depth;
        self.enter_at(kind, depth, at)
    }

    // Adds the ways out of the open blocks, from this one outward, seen from a handler that is entered now.
    fn add_all_behind(&mut self, first: u32, at: At) -> Result<(), AllocError>
        ensures { OnOk result (body_of self.new ≡ behind_from (length self.old.scopes.items) first 0 at (body_of self.old)) }
    {
        let most = self.scopes.len();
        let mut last = 0;
        let mut edge = first;
        for _ in 0..most {
            if edge == 0 {
                return Ok(());
            }
            let outer = self.outer_edge(edge)?;
            last = self.add_behind(edge, last, at)?;
            edge = outer;
        }
        Ok(())
    }

    // Adds the ways out of all open blocks, and answers the innermost one's number, 0 where no block is open.
    fn behind(&mut self, at: At) -> Result<u32, AllocError>
        ensures edge { IfOk result (λ edge. edge ≡ behind_edge (body_of self.old)) }
        ensures body { OnOk result (body_of self.new ≡ behind at (body_of self.old)) }
    {
        let first = self.scope_at(self.scope)?.edge;
        let number = self.next_number()?;
        self.add_all_behind(first, at)?;
        Ok(if first == 0 { 0 } else { number })
    }

    // The way out of the next block outward.
    fn outer_edge(&self, edge: u32) -> Result<u32, AllocError>
        ensures { IfOk result (λ outer. outer ≡ outer_edge edge (body_of self.now)) }
    {
        let found = self.scope_at(edge)?;
        match found.kind {
            ScopeKind::Behind { outer, .. } => Ok(outer),
            _ => Ok(self.scope_at(found.parent)?.edge),
        }
    }

    // Adds the way out of one more block, outward from that of `last`, and answers its number.
    fn add_behind(&mut self, edge: u32, last: u32, at: At) -> Result<u32, AllocError>
        ensures number { IfOk result (λ number. number ≡ length self.old.scopes.items) }
        ensures body { OnOk result (body_of self.new ≡ behind_one edge last at (body_of self.old)) }
    {
        let block = block_of(self.scope_at(edge)?.kind, edge);
        let scope = self.behind_scope(block, edge, at)?;
        let number = self.add(scope)?;
        self.link(last, number)?;
        Ok(number)
    }

    // The way out of a block, seen from a handler, with which it goes on at the way out `next`.
    fn behind_scope(&self, block: u32, next: u32, at: At) -> Result<Scope, AllocError>
        ensures { IfOk result (λ scope. scope ≡ behind_scope block next at (body_of self.now)) }
    {
        let found = self.scope_at(block)?;
        let number = self.next_number()?;
        Ok(Scope {
            kind: ScopeKind::Behind {
                block,
                next,
                outer: 0,
            },
            parent: found.parent,
            depth: found.depth,
            rows: number,
            edge: number,
            atomic: found.atomic,
            live: self.live,
            at,
        })
    }

    // The way out `outer` is that of the block around that of `inner`, if there is one.
    fn link(&mut self, inner: u32, outer: u32) -> Result<(), AllocError>
        ensures { OnOk result (body_of self.new ≡ linked inner outer (body_of self.old)) }
    {
        if inner == 0 {
            return Ok(());
        }
        let found = self.scope_at(inner)?;
        let scope = Scope {
            kind: led_to(outer, found.kind),
            ..found
        };
        self.scopes[inner as usize] = scope;
        Ok(())
    }

    /// Enters a handler, and answers its number.
    pub fn enter_handler(&mut self, at: At) -> Result<u32, AllocError>
        ensures number { IfOk result (λ number. number ≡ length (behind at (body_of self.old)).scopes) }
        ensures body { OnOk result (body_of self.new ≡ entered_handler at (body_of self.old)) }
    {
        let edge = self.behind(at)?;
        let depth = self.scope_at(self.scope)?.depth;
        let handler = self.made(ScopeKind::Handler, self.scope, depth, at)?;
        self.enter_as(Scope { edge, ..handler })
    }

    /// Leaves the innermost scope.
    pub fn leave(&mut self) -> Result<(), AllocError>
        ensures { OnOk result (body_of self.new ≡ left (body_of self.old)) }
    {
        self.scope = self.scope_at(self.scope)?.parent;
        Ok(())
    }

    /// Leaves this scope, which is the innermost one.
    pub fn leave_scope(&mut self, scope: u32) -> Result<(), AllocError>
        ensures { OnOk result (body_of self.new ≡ left_scope scope (body_of self.old)) }
    {
        if self.live && self.scope != scope {
            return Err(AllocError);
        }
        self.scope = self.scope_at(scope)?.parent;
        Ok(())
    }

    // The scopes inside those of a full-expression, the innermost first, and the scope around them.
    fn inner_scopes(&self, alloc: Global) -> Result<(Vec<Scope>, u32), AllocError>
        ensures { (kind : KindOfScope) (at : AtPlace) → IfOk result (λ found. with_temporary kind at (body_of self.now) ≡ entered_all found.0.items (entered kind at (at_scope found.1 (body_of self.now)))) }
    {
        let most = self.scopes.len();
        let mut inner = Vec::new(alloc);
        let mut number = self.scope;
        for _ in 0..most {
            let scope = self.scope_at(number)?;
            if is_full(scope.kind) {
                return Ok((inner, number));
            }
            if !is_inner(scope.kind) {
                return Err(AllocError);
            }
            inner.push(scope)?;
            number = scope.parent;
        }
        Err(AllocError)
    }

    // Enters scopes as before, the last one first.
    fn enter_all(&mut self, scopes: Vec<Scope>) -> Result<(), AllocError>
        ensures { OnOk result (body_of self.new ≡ entered_all scopes.items (body_of self.old)) }
    {
        let mut left = scopes;
        while let Some(scope) = left.pop() {
            self.enter_at(scope.kind, scope.depth, scope.at)?;
        }
        Ok(())
    }

    /// A temporary waits until the end of the full-expression: it comes before the arguments and parts that wait.
    pub fn add_temporary(
        &mut self,
        alloc: Global,
        kind: ScopeKind,
        at: At,
    ) -> Result<(), AllocError>
        ensures { OnOk result (body_of self.new ≡ with_temporary kind at (body_of self.old)) }
    {
        let (inner, full) = self.inner_scopes(alloc)?;
        self.scope = full;
        self.enter(kind, at)?;
        self.enter_all(inner)
    }

    /// Writes the sum of the two words on top as addresses.
    pub fn put_sum(&mut self, at: At) -> Result<(), AllocError>
        ensures { OnOk result (body_of self.new ≡ put_sum at (body_of self.old)) }
    {
        self.put(
            Instr::Bin {
                op: 0,
                kind: ADDRESS,
            },
            at,
        )
    }

    /// Adds a number to the address on top.
    pub fn put_offset(&mut self, offset: u32, at: At) -> Result<(), AllocError>
        ensures { OnOk result (body_of self.new ≡ put_offset offset at (body_of self.old)) }
    {
        if offset == 0 {
            return Ok(());
        }
        self.put(Instr::Push(offset as u64), at)?;
        self.put_sum(at)
    }

    /// Takes a number from the word on top.
    pub fn put_less(&mut self, number: u32, at: At) -> Result<(), AllocError>
        ensures { OnOk result (body_of self.new ≡ put_less number at (body_of self.old)) }
    {
        self.put(Instr::Push(number as u64), at)?;
        self.put_difference(at)
    }

    /// Writes the difference of the two words on top as addresses.
    pub fn put_difference(&mut self, at: At) -> Result<(), AllocError>
        ensures { OnOk result (body_of self.new ≡ put_difference at (body_of self.old)) }
    {
        self.put(
            Instr::Bin {
                op: 1,
                kind: ADDRESS,
            },
            at,
        )
    }

    /// Jumps back to an index where the word on top, which stays, is not 0.
    pub fn again(&mut self, top: u32, at: At) -> Result<(), AllocError>
        ensures { OnOk result (body_of self.new ≡ repeated top at (body_of self.old)) }
    {
        self.put(Instr::Dup, at)?;
        let past = self.jump_if_zero(at)?;
        self.put(Instr::Jump(top), at)?;
        self.bind(past)
    }

    // The scope of a `try` takes exceptions to the next index.
    fn catch_as(&mut self, scope: u32, what: u8, ty: u32) -> Result<(), AllocError>
        ensures { OnOk result (body_of self.new ≡ caught_as scope what ty (body_of self.old)) }
    {
        let target = self.here()?;
        self.catches.push(Catch {
            scope,
            target,
            what,
            ty,
        })?;
        Ok(())
    }

    /// The scope of a `try` takes each exception to the next index.
    pub fn catch_all(&mut self, scope: u32) -> Result<(), AllocError>
        ensures { OnOk result (body_of self.new ≡ caught_all scope (body_of self.old)) }
    {
        self.catch_as(scope, 2, 0)
    }

    /// The scope of a `try` takes exceptions of this type to the next index.
    pub fn catch_one(&mut self, scope: u32, ty: u32) -> Result<(), AllocError>
        ensures { OnOk result (body_of self.new ≡ caught_one scope ty (body_of self.old)) }
    {
        self.catch_as(scope, 1, ty)
    }
}
