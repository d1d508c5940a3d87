// Bound programs.

ghost use Rattle.std.proofs.Props.{props};
ghost use Rattle.src_bind.specs.Tables.{AreTables};

use crate::choices::Choices;
use crate::infos::FuncInfo;
use cpp_tree::Program;

/// A program whose symbols are bound to their kept definitions.
#[derive(Drop)]
pub struct Bound<'a> {
    pub(crate) program: &'a Program,
    pub(crate) choices: &'a Choices,
    // The functions, by their numbers.
    pub(crate) infos: Vec<FuncInfo>,
    // The numbers of the functions of each unit.
    pub(crate) numbers: Vec<Vec<u32>>,
    // The addresses of the globals of each unit.
    pub(crate) globals: Vec<Vec<u64>>,
    // The numbers of the classes.
    pub(crate) classes: Vec<u32>,
    // The number of a class that is not there.
    pub(crate) nameless: u32,
    // The classes, by their numbers.
    pub(crate) places: Vec<u32>,
    // The numbers of the functions in the slots of each class.
    pub(crate) slots: Vec<Vec<Option<u32>>>,
    pub(crate) main: u32,
    ghost tables: { AreTables (record { program = program.now; choices = choices.now }) (record { infos = infos.items; numbers = numbers.items; globals = globals.items; tables = classes.items; nameless = nameless; places = places.items; slots = slots.items; main = main }) } by { Prim.hlevel props },
}
