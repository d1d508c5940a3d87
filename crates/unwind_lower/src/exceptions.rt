//! What is thrown, and handlers.

ghost use Rattle.std.specs.Prelude.{◌≡◌, IfOk, OnOk};
ghost use Rattle.cpp_types.specs.Typ.{typ_of, shape_form};
ghost use Rattle.low_code.specs.Nodes.{node_of};
ghost use Rattle.low_code.specs.Caught.{names_of};
ghost use Rattle.unwind_lower.specs.States.{state_of};
ghost use Rattle.unwind_lower.specs.Settings.{setting_of};
ghost use Rattle.unwind_lower.specs.Kids.{kids_from};
ghost use Rattle.unwind_lower.specs.Exceptions.{start_throw, read_field, put_field, put_fields, drop_object, throw_value, thrown, later_handlers, start_try, try_done, behind_try};
ghost use Rattle.unwind_lower.specs.Exceptions.{catch_each, catch_class, catch_scalar, catch_form, catch_type, catch_live, take_field, take_fields, take_exception, enter_body, handle, handler_done};

use crate::items::{Item, Way};
use crate::kids::kids_from;
use crate::lowering::Lowering;
use crate::writing::Writing;
use cpp_tree::below::{At, ClassRec, IntKind, Shape, Ty};
use cpp_tree::{TKind, TNode, TNodeId};
use low_code::caught::{caught_classes, referred};
use low_code::nodes::kid;
use low_code::numbers::{bytes_number, load, store};
use low_code::types::{is_class_type, is_void};
use low_code::{ScopeKind, Sort};
use std::alloc::AllocError;
use tx_code::Instr;

// An offset in an exception.
fn offset_in(offset: u32) -> Result<u8, AllocError>
    ensures { IfOk result (λ all. all ≡ offset) }
{
    match u8::try_from(offset) {
        Ok(offset) => Ok(offset),
        Err(_) => Err(AllocError),
    }
}

impl Writing {
    /// An exception is made of a value.
    #[tactic(auto, unfolding(crate::specs::Exceptions::start_throw))]
    pub fn start_throw(&mut self, id: TNodeId, node: &TNode) -> Result<(), AllocError>
        ensures { OnOk result (state_of self.new ≡ start_throw id (node_of node.now) (state_of self.old)) }
    {
        self.later(Item::Thrown(id))?;
        self.run_kid(node, 0, Way::Value)
    }

    // A scalar goes into the exception that is made: of an object whose address lies on top, or the word on top.
    #[tactic(auto, unfolding(crate::specs::Exceptions::put_field))]
    fn put_field(&mut self, kind: TKind, at: At, is_object: bool) -> Result<(), AllocError>
        ensures { OnOk result (state_of self.new ≡ put_field kind at is_object (state_of self.old)) }
    {
        let TKind::Field { offset, kind } = kind else {
            return Err(AllocError);
        };
        self.read_field(offset, kind, at, is_object)?;
        let offset = offset_in(offset)?;
        let kind = bytes_number(kind);
        self.put(Instr::PutException { offset, kind }, at)
    }

    // A scalar of an object whose address lies on top.
    #[tactic(auto, unfolding(crate::specs::Exceptions::read_field))]
    fn read_field(
        &mut self,
        offset: u32,
        kind: IntKind,
        at: At,
        is_object: bool,
    ) -> Result<(), AllocError>
        ensures { OnOk result (state_of self.new ≡ read_field offset kind at is_object (state_of self.old)) }
    {
        if !is_object {
            return Ok(());
        }
        self.put(Instr::Dup, at)?;
        self.put_offset(offset, at)?;
        self.put(load(kind, false), at)
    }

    // The address of an object that was thrown is dropped.
    #[tactic(auto, unfolding(crate::specs::Exceptions::drop_object))]
    fn drop_object(&mut self, at: At, is_object: bool) -> Result<(), AllocError>
        ensures { OnOk result (state_of self.new ≡ drop_object at is_object (state_of self.old)) }
    {
        if is_object {
            return self.put(Instr::Pop, at);
        }
        Ok(())
    }

    /// The body of a `try`.
    #[tactic(auto, unfolding(crate::specs::Exceptions::start_try))]
    pub fn start_try(&mut self, id: TNodeId, node: &TNode) -> Result<(), AllocError>
        ensures { OnOk result (state_of self.new ≡ start_try id (node_of node.now) (state_of self.old)) }
    {
        let live = self.is_live();
        let scope = self.enter(ScopeKind::Try, node.at)?;
        self.later(Item::Past(scope))?;
        self.later_handlers(node, scope, live)?;
        self.later(Item::TryDone(id, scope))?;
        self.run_kid(node, 0, Way::Dropped)
    }

    // The handlers of a `try` with this scope.
    fn later_handlers(&mut self, node: &TNode, scope: u32, live: bool) -> Result<(), AllocError>
        ensures { OnOk result (state_of self.new ≡ later_handlers (kids_from (node_of node.now) 1) scope live (state_of self.old)) }
    {
        let mut index = node.kids.len();
        while index > 1 {
            index -= 1;
            self.later(Item::Handle(kid(node, index)?, scope, live))?;
        }
        Ok(())
    }

    /// The body of a `try` is done.
    #[tactic(auto, unfolding(crate::specs::Exceptions::try_done))]
    pub fn try_done(&mut self, scope: u32, at: At) -> Result<(), AllocError>
        ensures { OnOk result (state_of self.new ≡ try_done scope at (state_of self.old)) }
    {
        self.leave_scope(scope)?;
        self.jump_to(scope, Sort::Past, at)
    }

    // What comes next stands where the `try` with this scope does.
    #[tactic(auto, unfolding(crate::specs::Exceptions::behind_try))]
    fn behind_try(&mut self, scope: u32, live: bool) -> Result<(), AllocError>
        ensures { OnOk result (state_of self.new ≡ behind_try scope live (state_of self.old)) }
    {
        let tried = self.scope_at(scope)?;
        self.set_scope(tried.parent);
        self.set_depth(tried.depth);
        self.set_live(live);
        Ok(())
    }

    // A scalar of the exception is stored in the handler's object.
    #[tactic(auto, unfolding(crate::specs::Exceptions::take_field))]
    fn take_field(&mut self, kind: TKind, base: u32, at: At) -> Result<(), AllocError>
        ensures { OnOk result (state_of self.new ≡ take_field kind base at (state_of self.old)) }
    {
        let TKind::Field { offset, kind } = kind else {
            return Err(AllocError);
        };
        let Some(address) = base.checked_add(offset) else {
            return Err(AllocError);
        };
        self.put(Instr::FrameAddr(address), at)?;
        let number = bytes_number(kind);
        let get = Instr::GetException {
            offset: offset_in(offset)?,
            kind: number,
        };
        self.put(get, at)?;
        self.put(store(kind, false), at)
    }

    /// A handler's body is done.
    #[tactic(auto, unfolding(crate::specs::Exceptions::handler_done))]
    pub fn handler_done(&mut self, handler: u32, scope: u32, at: At) -> Result<(), AllocError>
        ensures { OnOk result (state_of self.new ≡ handler_done handler scope at (state_of self.old)) }
    {
        self.put(Instr::EndHandler, at)?;
        self.leave_scope(handler)?;
        self.jump_to(scope, Sort::Past, at)
    }
}

impl<'a> Lowering<'a> {
    /// What is thrown lies on top: a scalar, or the address of an object.
    #[tactic(auto, unfolding(crate::specs::Exceptions::thrown))]
    pub fn thrown(&self, w: &mut Writing, node: &TNode) -> Result<(), AllocError>
        ensures { OnOk result (state_of w.new ≡ thrown (setting_of self.now) (node_of node.now) (state_of w.old)) }
    {
        let value = self.node(kid(node, 0)?)?;
        self.throw_value(w, &value.ty, kids_from(node, 1), node.at)
    }

    // A value of this type is thrown, with these scalars.
    #[tactic(auto, unfolding(crate::specs::Exceptions::throw_value))]
    fn throw_value(
        &self,
        w: &mut Writing,
        ty: &Ty,
        fields: &[TNodeId],
        at: At,
    ) -> Result<(), AllocError>
        ensures { OnOk result (state_of w.new ≡ throw_value (setting_of self.now) (typ_of ty.now) fields.now at (state_of w.old)) }
    {
        let name = self.type_name(w, ty)?;
        w.put(Instr::NewException(name), at)?;
        let is_object = is_class_type(ty);
        self.put_fields(w, fields, is_object)?;
        w.drop_object(at, is_object)?;
        w.put(Instr::Throw, at)
    }

    #[tactic(auto, unfolding(crate::specs::Exceptions::put_fields))]
    fn put_fields(
        &self,
        w: &mut Writing,
        fields: &[TNodeId],
        is_object: bool,
    ) -> Result<(), AllocError>
        ensures { OnOk result (state_of w.new ≡ put_fields (setting_of self.now) is_object fields.now (state_of w.old)) }
    {
        for id in fields {
            let field = self.node(*id)?;
            w.put_field(field.kind, field.at, is_object)?;
        }
        Ok(())
    }

    // What a handler of this type catches comes to the next index.
    #[tactic(auto, unfolding(crate::specs::Exceptions::catch_type))]
    fn catch_type(&self, w: &mut Writing, scope: u32, ty: &Ty) -> Result<(), AllocError>
        ensures { OnOk result (state_of w.new ≡ catch_type (setting_of self.now) scope (typ_of ty.now) (state_of w.old)) }
    {
        if is_void(ty) {
            return w.catch_all(scope);
        }
        self.catch_form(w, scope, referred(ty))
    }

    // Of a class those of all classes derived from it too.
    #[tactic(auto, unfolding(crate::specs::Exceptions::catch_form))]
    fn catch_form(&self, w: &mut Writing, scope: u32, ty: &Ty) -> Result<(), AllocError>
        ensures { OnOk result (state_of w.new ≡ catch_form (setting_of self.now) scope (shape_form ty.now.shape) (typ_of ty.now) (state_of w.old)) }
    {
        match &ty.shape {
            Shape::Class(class) => self.catch_class(w, scope, *class),
            _ => self.catch_scalar(w, scope, ty),
        }
    }

    // Exceptions of a class and of those derived from it.
    #[tactic(auto, unfolding(crate::specs::Exceptions::catch_class, crate::specs::Settings::setting_of))]
    fn catch_class(&self, w: &mut Writing, scope: u32, class: u32) -> Result<(), AllocError>
        ensures { OnOk result (state_of w.new ≡ catch_class (setting_of self.now) scope class (state_of w.old)) }
    {
        let program = self.program;
        let found = self.class_at(class)?;
        let caught = caught_classes(self.alloc, &program.classes, &found.name)?;
        self.catch_each(w, scope, &caught)
    }

    #[tactic(auto, unfolding(crate::specs::Exceptions::catch_each))]
    fn catch_each(
        &self,
        w: &mut Writing,
        scope: u32,
        classes: &[&ClassRec],
    ) -> Result<(), AllocError>
        ensures { OnOk result (state_of w.new ≡ catch_each scope (names_of classes.now) (state_of w.old)) }
    {
        for class in classes {
            let name = self.name(w, &class.name)?;
            w.catch_one(scope, name)?;
        }
        Ok(())
    }

    #[tactic(auto, unfolding(crate::specs::Exceptions::catch_scalar))]
    fn catch_scalar(&self, w: &mut Writing, scope: u32, ty: &Ty) -> Result<(), AllocError>
        ensures { OnOk result (state_of w.new ≡ catch_scalar (setting_of self.now) scope (typ_of ty.now) (state_of w.old)) }
    {
        let name = self.type_name(w, ty)?;
        w.catch_one(scope, name)
    }

    /// A handler is entered at the next index.
    #[tactic(auto, unfolding(crate::specs::Exceptions::handle))]
    pub fn handle(
        &self,
        w: &mut Writing,
        kind: TKind,
        node: &TNode,
        scope: u32,
        live: bool,
    ) -> Result<(), AllocError>
        ensures { OnOk result (state_of w.new ≡ handle (setting_of self.now) kind (node_of node.now) scope live (state_of w.old)) }
    {
        let TKind::Handler { place } = kind else {
            return Err(AllocError);
        };
        w.behind_try(scope, live)?;
        self.catch_live(w, node, scope, live)?;
        self.enter_body(w, node, place, scope)
    }

    // A handler is entered at the next index, and its body is run.
    #[tactic(auto, unfolding(crate::specs::Exceptions::enter_body))]
    fn enter_body(
        &self,
        w: &mut Writing,
        node: &TNode,
        place: Option<u32>,
        scope: u32,
    ) -> Result<(), AllocError>
        ensures { OnOk result (state_of w.new ≡ enter_body (setting_of self.now) (node_of node.now) place scope (state_of w.old)) }
    {
        let handler = w.enter_handler(node.at)?;
        self.take_exception(w, node, place)?;
        w.later(Item::HandlerDone(handler, scope, node.at))?;
        w.run_kid(node, 0, Way::Dropped)
    }

    // A handler that cannot be reached catches nothing.
    #[tactic(auto, unfolding(crate::specs::Exceptions::catch_live))]
    fn catch_live(
        &self,
        w: &mut Writing,
        node: &TNode,
        scope: u32,
        live: bool,
    ) -> Result<(), AllocError>
        ensures { OnOk result (state_of w.new ≡ catch_live (setting_of self.now) (typ_of node.now.ty) scope live (state_of w.old)) }
    {
        if live {
            return self.catch_type(w, scope, &node.ty);
        }
        Ok(())
    }

    // The exception is stored in the handler's object, if it has one.
    #[tactic(auto, unfolding(crate::specs::Exceptions::take_exception))]
    fn take_exception(
        &self,
        w: &mut Writing,
        node: &TNode,
        place: Option<u32>,
    ) -> Result<(), AllocError>
        ensures { OnOk result (state_of w.new ≡ take_exception (setting_of self.now) (node_of node.now) place (state_of w.old)) }
    {
        match place {
            Some(place) => {
                let base = self.place(place)?;
                self.take_fields(w, kids_from(node, 1), base, node.at)
            }
            None => Ok(()),
        }
    }

    #[tactic(auto, unfolding(crate::specs::Exceptions::take_fields))]
    fn take_fields(
        &self,
        w: &mut Writing,
        fields: &[TNodeId],
        base: u32,
        at: At,
    ) -> Result<(), AllocError>
        ensures { OnOk result (state_of w.new ≡ take_fields (setting_of self.now) fields.now base at (state_of w.old)) }
    {
        for id in fields {
            let field = self.node(*id)?;
            w.take_field(field.kind, base, at)?;
        }
        Ok(())
    }
}
