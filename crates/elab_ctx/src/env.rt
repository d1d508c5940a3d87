// What is declared where a form stands, and what is made there.

ghost use Rattle.std.specs.Prelude.{◌≡◌, true, map};
ghost use Rattle.cpp_tree.specs.cpp_types.Class.{classes_of};
ghost use Rattle.cpp_tree.specs.cpp_types.Order.{all_consistent};
ghost use Rattle.elab_ctx.specs.Layouts.{completed_in, layout_of, layouts_of};

use crate::class_layout::ClassLayout;
use crate::functions::Functions;
use crate::type_names::TypeNames;
use cpp_names::Scopes;
use cpp_tree::below::{At, ClassRec, FuncRec, Ty};
use cpp_tree::{Builtin, FuncKind, Linkage, SlotRec, TGlobal, TNode, TNodeId, TParam};

/// A function of the unit, a member function too.
#[derive(Drop)]
pub struct FuncDecl {
    pub rec: FuncRec,
    pub kind: FuncKind,
    /// The class of which it is a member.
    pub class: Option<u32>,
    pub linkage: Linkage,
    /// Whether no text declares it.
    pub implicit: bool,
    pub is_defined: bool,
    /// Which one it is of those that every unit knows.
    pub builtin: Option<Builtin>,
    pub params: Vec<TParam>,
    /// The definition text of an inline definition, else empty.
    pub text: Vec<u8>,
    /// The byte offset from which on its definition counts as passed.
    pub closed_at: u32,
}

/// An enumerator (C++14 7.2).
#[derive(Drop)]
pub struct EnumRec {
    pub ty: Ty,
    pub word: u64,
}

/// The default initialiser of a member (C++14 9.2), made once behind the brace of its class: a tree of nodes of its
/// own, and the items of the frame that it needs behind `this`.
#[derive(Drop)]
pub struct DefaultInit {
    pub class: u32,
    pub member: u32,
    pub init: TNodeId,
    pub frame: Vec<Ty>,
}

/// A special member of a class (C++14 clause 12).
#[derive(Clone, Copy, Debug, PartialEq, Eq)]
pub enum Special {
    /// It is not there, or can't be called.
    Absent,
    /// It does to each part what is to be done, and is no function.
    Trivial,
    /// A function of the unit, written or implicit.
    Function(u32),
}

/// What holds of a complete class as a whole.
#[derive(Clone, Copy, Debug, PartialEq, Eq)]
pub struct Traits {
    pub default: Special,
    pub copy: Special,
    /// Whether an implicit copy takes objects that are `const` too.
    pub copies_const: bool,
    pub destructor: Special,
    /// Whether there is an implicit copy assignment.
    pub is_assignable: bool,
    /// Whether a final overrider is pure (C++14 10.4).
    pub is_abstract: bool,
    /// Whether a part of it is volatile.
    pub is_volatile: bool,
    /// Whether it is copied byte by byte (C++14 3.9).
    pub is_trivially_copyable: bool,
}

/// A variable of the function at hand, a parameter too.
#[derive(Drop)]
pub struct Variable {
    /// `None` while the initialiser of an `auto` variable is read.
    pub ty: Option<Ty>,
    /// Its place in the frame.
    pub place: u32,
}

/// The object of the member function at hand.
#[derive(Drop)]
pub struct This {
    /// The type of `*this`.
    pub ty: Ty,
    /// The place of the pointer in the frame.
    pub place: u32,
}

/// What `return` gives.
#[derive(Drop)]
pub enum Returns {
    /// A value of the result type.
    Known(Ty),
    /// A value whose type is to be the result type; the first `return` decides.
    Deduced(Option<Ty>),
}

/// Whether a label of a `switch` may stand here, and why not (C++14 6.4.2; the TS, [stmt.tx]).
#[derive(Clone, Copy, Debug, PartialEq, Eq)]
pub enum Label {
    /// No `switch` is around.
    Outside,
    /// Directly in the body of a `switch`, or behind another label there.
    Direct,
    /// In another statement of the `switch`.
    Inside,
    /// In a block of a transaction or a synchronized block in the `switch`.
    InBlock,
}

/// The labels of the `switch` at hand so far.
#[derive(Drop)]
pub struct Labels {
    /// The type of its value, promoted.
    pub ty: Ty,
    pub words: Vec<u64>,
    pub has_default: bool,
    /// Whether a declaration stands before that has to be executed.
    pub is_past: bool,
}

/// A capture of a lambda (C++14 5.1.2).
#[derive(Drop)]
pub struct Capture {
    /// The variable, or `None` for `this`.
    pub variable: Option<u32>,
    pub by_ref: bool,
    /// The type of its member.
    pub ty: Ty,
    pub at: At,
}

/// The lambda in whose body a form stands.
#[derive(Drop)]
pub struct Lambda {
    pub class: u32,
    /// How many variables the enclosing function has; the others are the lambda's own.
    pub outer: u32,
    pub captures: Vec<Capture>,
}

/// A lambda of the full-expression at hand, made before it.
#[derive(Drop)]
pub struct Closure {
    /// The place of the lambda.
    pub at: At,
    pub class: u32,
    pub captures: Vec<Capture>,
}

/// What is declared where a form stands.
#[derive(Drop)]
pub struct Env {
    pub source: u32,
    pub scopes: Scopes,
    pub types: TypeNames,
    pub classes: Vec<ClassRec>,
    /// How many of the classes are complete.
    pub completed: u32,
    /// For each class how its objects are laid out.
    pub layouts: Vec<ClassLayout>,
    /// For each class what holds of it once it is complete.
    pub traits: Vec<Traits>,
    /// For each class the final overriders of its slots.
    pub slots: Vec<Vec<SlotRec>>,
    pub defaults: Vec<DefaultInit>,
    /// The nodes of the default initialisers.
    pub default_nodes: Vec<TNode>,
    pub funcs: Functions,
    pub enumerators: Vec<EnumRec>,
    /// The variables of the function at hand, in order of declaration.
    pub variables: Vec<Variable>,
    pub this: Option<This>,
    /// The class whose members are visible by their names.
    pub class: Option<u32>,
    pub returns: Returns,
    pub breaks: bool,
    pub continues: bool,
    pub label: Label,
    pub labels: Labels,
    pub lambda: Option<Lambda>,
    pub closures: Vec<Closure>,
    /// The classes are in order, so that their objects have sizes.
    pub ghost in_order: { all_consistent (classes_of classes.items) ≡ true },
    pub ghost counted: { completed ≡ completed_in (classes_of classes.items) },
    pub ghost laid_out: { map layout_of layouts.items ≡ layouts_of (classes_of classes.items) },
}

/// What is made: typed nodes, the frame of the function at hand, and the globals of the unit, strings among them.
#[derive(Drop)]
pub struct Work {
    pub nodes: Vec<TNode>,
    pub frame: Vec<Ty>,
    pub globals: Vec<TGlobal>,
}
