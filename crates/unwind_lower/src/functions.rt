//! Functions.

ghost use Rattle.std.specs.Prelude.{◌≡◌, IfOk, OnOk};
ghost use Rattle.cpp_types.specs.Typ.{typ_of};
ghost use Rattle.unwind_lower.specs.States.{state_of};
ghost use Rattle.unwind_lower.specs.Settings.{setting_of};
ghost use Rattle.unwind_lower.specs.Functions.{store_word, store_words, WrittenTo, Lowered};

use crate::items::{Item, Way};
use crate::lowering::Lowering;
use crate::writing::Writing;
use cpp_tree::below::{At, Ty};
use cpp_tree::{Program, TFunc, TNodeId, UnitTree};
use low_code::nodes::node_at;
use low_code::numbers::store;
use low_code::rows::rows_of;
use low_code::types::stored_kind;
use low_code::{LowInstr, NameTable, Scope, Writer};
use std::alloc::{AllocError, Global};
use tx_code::{Instr, Row};

/// The code of a function, whose names are numbers of a table.
#[derive(Drop)]
pub struct LowFunc {
    pub code: Vec<LowInstr>,
    pub scopes: Vec<Scope>,
    pub rows: Vec<Row>,
}

impl Writing {
    // The word on top is stored at this offset of the frame.
    #[tactic(auto, unfolding(crate::specs::Functions::store_word))]
    fn store_word(&mut self, offset: u32, ty: &Ty, at: At) -> Result<(), AllocError>
        ensures { OnOk result (state_of self.new ≡ store_word offset (typ_of ty.now) at (state_of self.old)) }
    {
        self.put(Instr::FrameAddr(offset), at)?;
        self.put(Instr::Swap, at)?;
        self.put(store(stored_kind(ty), ty.is_volatile), at)
    }
}

impl<'a> Lowering<'a> {
    // The words of the call are stored at their places, the first one first.
    #[tactic(auto, unfolding(crate::specs::Functions::store_words))]
    fn store_words(&self, w: &mut Writing, at: At) -> Result<(), AllocError>
        ensures { OnOk result (state_of w.new ≡ store_words (setting_of self.now) at (state_of w.old)) }
    {
        let func = self.func;
        for i in 0..func.words {
            let Some(item) = func.frame.get(i as usize) else {
                return Err(AllocError);
            };
            let offset = self.place(i)?;
            w.store_word(offset, item, at)?;
        }
        Ok(())
    }

    // The words, the body and then the ways out.
    fn write_body(&self, w: &mut Writing, body: TNodeId, at: At) -> Result<(), AllocError>
        ensures { OnOk result (WrittenTo (setting_of self.now) body at (state_of w.old) (state_of w.new)) }
    {
        self.store_words(w, at)?;
        w.later(Item::BodyEnds(at))?;
        w.later(Item::Run(body, Way::Dropped))?;
        self.write_all(w)?;
        w.later(Item::Pads(0))?;
        self.write_all(w)?;
        Ok(())
    }
}

/// The code of a function with this body, whose frame has its items at these offsets; names get numbers of the table.
pub fn lower_function<'a>(
    alloc: Global,
    program: &'a Program,
    unit: &'a UnitTree,
    func: &'a TFunc,
    body: TNodeId,
    places: Vec<u32>,
    temporaries: &'a [bool],
    names: NameTable,
) -> Result<(LowFunc, NameTable), AllocError>
    ensures { IfOk result (λ r. Lowered (record { program = program.now; unit = unit.now; func = func.now; places = places.items; temporaries = temporaries.now }) body names r.0.code.items r.0.scopes.items r.0.rows.items r.1) }
{
    let at = node_at(unit, body)?.at;
    let lowering = Lowering {
        alloc,
        program,
        unit,
        func,
        places,
        temporaries,
    };
    let mut writing = Writing {
        names,
        out: Writer::new(alloc, func.words, at)?,
        work: Vec::new(alloc),
    };
    lowering.write_body(&mut writing, body, at)?;
    let rows = rows_of(alloc, &writing.out)?;
    let Writing { names, out, .. } = writing;
    let Writer { code, scopes, .. } = out;
    Ok((LowFunc { code, scopes, rows }, names))
}
