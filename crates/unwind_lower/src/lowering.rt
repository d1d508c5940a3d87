//! What a function's body is written from.

ghost use Rattle.std.specs.Prelude.{◌≡◌, IfOk, OnOk};
ghost use Rattle.cpp_types.specs.Typ.{typ_of, signature_of};
ghost use Rattle.low_code.specs.Nodes.{node_of};
ghost use Rattle.low_code.specs.Types.{gives, member_text};
ghost use Rattle.unwind_lower.specs.States.{state_of, named, number_of};
ghost use Rattle.unwind_lower.specs.Settings.{setting_of, node_in, makes_temporaries, place_in, callee_of, callee_in, classes_in, gives_of, text_of, global_symbol, class_name, bare_text};

use crate::writing::Writing;
use cpp_tree::below::{ClassRec, Ty};
use cpp_tree::{Program, TFunc, TNode, TNodeId, UnitTree};
use low_code::nodes::node_at;
use low_code::types::bare_text;
use std::alloc::{AllocError, Global};

/// What a function's body is written from.
#[derive(Drop)]
pub struct Lowering<'a> {
    pub alloc: Global,
    pub program: &'a Program,
    pub unit: &'a UnitTree,
    pub func: &'a TFunc,
    /// The offsets of the items of its frame.
    pub places: Vec<u32>,
    /// Of each node of the unit, whether it makes temporaries that wait in the full-expression around it.
    pub temporaries: &'a [bool],
}

impl<'a> Lowering<'a> {
    /// The node with this id.
    #[tactic(auto, unfolding(crate::specs::Settings::setting_of, crate::specs::Settings::node_in))]
    pub fn node(&self, id: TNodeId) -> Result<&'a TNode, AllocError>
        ensures shown { IfOk result (λ n. node_of n.now ≡ node_in (setting_of self.now) id) }
        ensures kind { IfOk result (λ n. n.now.kind ≡ (node_in (setting_of self.now) id).kind) }
        ensures typ { IfOk result (λ n. typ_of n.now.ty ≡ (node_in (setting_of self.now) id).typ) }
        ensures place { IfOk result (λ n. n.now.at ≡ (node_in (setting_of self.now) id).at) }
        ensures kids { IfOk result (λ n. n.now.kids.items ≡ (node_in (setting_of self.now) id).kids) }
    {
        let unit = self.unit;
        let node = node_at(unit, id)?;
        Ok(node)
    }

    /// Whether the node makes temporaries that wait in the full-expression around it.
    #[tactic(auto, unfolding(crate::specs::Settings::setting_of, crate::specs::Settings::makes_temporaries))]
    pub fn makes_temporaries(&self, id: TNodeId) -> bool
        ensures { result ≡ makes_temporaries (setting_of self.now) id }
    {
        match self.temporaries.get(id.0 as usize) {
            Some(makes) => *makes,
            None => false,
        }
    }

    /// The offset of an item of the frame.
    #[tactic(auto, unfolding(crate::specs::Settings::setting_of, crate::specs::Settings::place_in))]
    pub fn place(&self, place: u32) -> Result<u32, AllocError>
        ensures { IfOk result (λ offset. offset ≡ place_in (setting_of self.now) place) }
    {
        match self.places.get(place as usize) {
            Some(offset) => Ok(*offset),
            None => Err(AllocError),
        }
    }

    /// A function of the unit.
    #[tactic(auto, unfolding(crate::specs::Settings::setting_of, crate::specs::Settings::callee_in, crate::specs::Settings::gives_of, crate::specs::Settings::text_of))]
    pub fn func_at(&self, func: u32) -> Result<&'a TFunc, AllocError>
        ensures shown { IfOk result (λ f. callee_of f.now ≡ callee_in (setting_of self.now) func) }
        ensures symbol { IfOk result (λ f. f.now.symbol.items ≡ (callee_in (setting_of self.now) func).symbol) }
        ensures gives { IfOk result (λ f. gives f.now.kind (signature_of f.now.rec.ty) ≡ gives_of (callee_in (setting_of self.now) func)) }
        ensures text { IfOk result (λ f. member_text (classes_in (setting_of self.now)) f.now.class f.now.kind (signature_of f.now.rec.ty) ≡ text_of (setting_of self.now) (callee_in (setting_of self.now) func)) }
    {
        let unit = self.unit;
        match unit.funcs.get(func as usize) {
            Some(found) => Ok(found),
            None => Err(AllocError),
        }
    }

    /// A class of the program.
    #[tactic(auto, unfolding(crate::specs::Settings::setting_of, crate::specs::Settings::class_name))]
    pub fn class_at(&self, class: u32) -> Result<&'a ClassRec, AllocError>
        ensures { IfOk result (λ c. c.now.name.items ≡ class_name (setting_of self.now) class) }
    {
        let program = self.program;
        match program.classes.get(class as usize) {
            Some(found) => Ok(found),
            None => Err(AllocError),
        }
    }

    /// The number of a name.
    #[tactic(auto, unfolding(crate::specs::States::state_of, crate::specs::States::named, crate::specs::States::number_of))]
    pub fn name(&self, w: &mut Writing, name: &[u8]) -> Result<u32, AllocError>
        ensures number { IfOk result (λ number. number ≡ number_of name.now (state_of w.old)) }
        ensures state { OnOk result (state_of w.new ≡ named name.now (state_of w.old)) }
    {
        w.names.number(self.alloc, name)
    }

    /// The number of a function's symbol.
    pub fn func_name(&self, w: &mut Writing, func: u32) -> Result<u32, AllocError>
        ensures number { IfOk result (λ number. number ≡ number_of (callee_in (setting_of self.now) func).symbol (state_of w.old)) }
        ensures state { OnOk result (state_of w.new ≡ named (callee_in (setting_of self.now) func).symbol (state_of w.old)) }
    {
        let found = self.func_at(func)?;
        self.name(w, &found.symbol)
    }

    /// The number of a global's symbol.
    #[tactic(auto, unfolding(crate::specs::Settings::setting_of, crate::specs::Settings::global_symbol))]
    pub fn global_name(&self, w: &mut Writing, global: u32) -> Result<u32, AllocError>
        ensures number { IfOk result (λ number. number ≡ number_of (global_symbol (setting_of self.now) global) (state_of w.old)) }
        ensures state { OnOk result (state_of w.new ≡ named (global_symbol (setting_of self.now) global) (state_of w.old)) }
    {
        let unit = self.unit;
        match unit.globals.get(global as usize) {
            Some(found) => self.name(w, &found.symbol),
            None => Err(AllocError),
        }
    }

    /// The number of a class's name.
    pub fn class_name(&self, w: &mut Writing, class: u32) -> Result<u32, AllocError>
        ensures number { IfOk result (λ number. number ≡ number_of (class_name (setting_of self.now) class) (state_of w.old)) }
        ensures state { OnOk result (state_of w.new ≡ named (class_name (setting_of self.now) class) (state_of w.old)) }
    {
        let found = self.class_at(class)?;
        self.name(w, &found.name)
    }

    /// The number of a type's spelling, its own `const` and `volatile` left out.
    #[tactic(auto, unfolding(crate::specs::Settings::setting_of, crate::specs::Settings::bare_text))]
    pub fn type_name(&self, w: &mut Writing, ty: &Ty) -> Result<u32, AllocError>
        ensures number { IfOk result (λ number. number ≡ number_of (bare_text (setting_of self.now) (typ_of ty.now)) (state_of w.old)) }
        ensures state { OnOk result (state_of w.new ≡ named (bare_text (setting_of self.now) (typ_of ty.now)) (state_of w.old)) }
    {
        let program = self.program;
        let text = bare_text(self.alloc, ty, &program.classes)?;
        self.name(w, &text)
    }
}
