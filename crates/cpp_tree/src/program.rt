// Units and programs.

ghost use Rattle.std.specs.Prelude.{◌≡◌, ◌<◌, length, Some, slice_get};

use crate::arena::{TNode, TNodeId};
use cpp_layout::below::{At, ClassRec, FnTy, FuncRec, Ty};

/// How the declarations of a name in several units are joined (C++14 3.5, 7.1.2).
#[derive(Clone, Copy, Debug, PartialEq, Eq)]
pub enum Linkage {
    External,
    Internal,
    /// External, and defined in each unit that uses it.
    Inline,
}

/// What sort of function it is.
#[derive(Clone, Copy, Debug, PartialEq, Eq)]
pub enum FuncKind {
    /// A function, or a member function that is none of the others.
    Plain,
    Constructor,
    Destructor,
    /// The body of a lambda.
    ClosureCall,
}

/// A parameter as it is declared.
#[derive(Drop)]
pub struct TParam {
    pub ty: Ty,
    /// The place of its name, or of the parameter where it has none.
    pub at: At,
}

/// A function that a unit declares or refers to.
#[derive(Drop)]
pub struct TFunc {
    pub symbol: Vec<u8>,
    pub rec: FuncRec,
    pub linkage: Linkage,
    /// The definition text of an inline definition, else empty.
    pub text: Vec<u8>,
    pub kind: FuncKind,
    /// The class of a member function, by its index among the classes of the program.
    pub class: Option<u32>,
    /// Whether no text declares it.
    pub implicit: bool,
    /// How many words a call passes: the address of a result of class type, the object of a member function, the
    /// parameters. They are the first items of the frame.
    pub words: u32,
    pub params: Vec<TParam>,
    /// The types of the items of its frame.
    pub frame: Vec<Ty>,
    /// `None` where the unit does not define it.
    pub body: Option<TNodeId>,
    /// The byte offset in the source from which on its definition counts as passed.
    pub closed_at: u32,
}

/// What a part of the first bytes of a global is.
#[derive(Clone, Copy, Debug, PartialEq, Eq)]
pub enum CellKind {
    Number,
    GlobalAddr,
    FuncAddr,
}

/// A part of the first bytes of a global.
#[derive(Drop)]
pub struct InitCell {
    pub offset: u32,
    /// In bytes: 1, 2, 4 or 8.
    pub size: u8,
    pub what: CellKind,
    /// The number, or what is added to an address.
    pub value: u64,
    /// Whose address it is, else empty.
    pub symbol: Vec<u8>,
}

/// A global or a string.
#[derive(Drop)]
pub struct TGlobal {
    pub symbol: Vec<u8>,
    pub ty: Ty,
    pub linkage: Linkage,
    pub init: Vec<InitCell>,
    pub defined: bool,
}

/// A class, not of a lambda, that the unit defines, and its definition text.
#[derive(Drop)]
pub struct ClassDef {
    pub class: u32,
    pub text: Vec<u8>,
}

/// The final overrider in a slot of a class (C++14 10.3): the function with the index `func` among those of the
/// class `class`.
#[derive(Drop)]
pub struct SlotRec {
    pub name: Vec<u8>,
    pub ty: FnTy,
    pub class: u32,
    pub func: u32,
    /// Whether a call of it counts as safe.
    pub safe: bool,
    /// Whether it is declared `transaction_safe_dynamic`.
    pub dynamic: bool,
}

/// The typed form of one unit.
#[derive(Drop)]
pub struct UnitTree {
    pub nodes: Vec<TNode>,
    pub funcs: Vec<TFunc>,
    pub globals: Vec<TGlobal>,
    pub classes: Vec<ClassDef>,
}

impl UnitTree {
    /// The node with this id.
    pub fn tnode(&self, id: TNodeId) -> &TNode
        requires { id.0 < length self.now.nodes.items }
        ensures { slice_get self.now.nodes.items id.0 ≡ Some result.now }
    {
        &self.nodes[id.0 as usize]
    }
}

/// The typed form of units that are linked into one program.
#[derive(Drop)]
pub struct Program {
    pub units: Vec<UnitTree>,
    /// The classes of all units, which name each other by their indexes.
    pub classes: Vec<ClassRec>,
    /// For each class the final overriders of its slots.
    pub slots: Vec<Vec<SlotRec>>,
}
