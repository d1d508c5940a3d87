//! The names of an object: those that are used, in the order of their bytes.

use low_code::NameTable;
use std::alloc::{AllocError, Global};
use tx_code::{Body, Instr, Row};

// What an instruction names.
fn named(instr: Instr) -> Option<u32> {
    match instr {
        Instr::GlobalAddr(name) | Instr::FuncAddr(name) | Instr::ClassAddr(name) => Some(name),
        Instr::Call { func, .. } | Instr::TCall { func, .. } => Some(func),
        Instr::CallIndirect { ty, .. } | Instr::TCallIndirect { ty, .. } => Some(ty),
        Instr::Slot { class, .. } => Some(class),
        Instr::NewException(ty) => Some(ty),
        _ => None,
    }
}

// The instruction with this name in place of its own.
fn renamed(instr: Instr, name: u32) -> Instr {
    match instr {
        Instr::GlobalAddr(_) => Instr::GlobalAddr(name),
        Instr::FuncAddr(_) => Instr::FuncAddr(name),
        Instr::ClassAddr(_) => Instr::ClassAddr(name),
        Instr::Call { words, .. } => Instr::Call { func: name, words },
        Instr::TCall { words, .. } => Instr::TCall { func: name, words },
        Instr::CallIndirect { words, .. } => Instr::CallIndirect { ty: name, words },
        Instr::TCallIndirect { words, .. } => Instr::TCallIndirect { ty: name, words },
        Instr::Slot { slot, .. } => Instr::Slot { class: name, slot },
        Instr::NewException(_) => Instr::NewException(name),
        _ => instr,
    }
}

/// What becomes of the names of a table: first which of them are used, then their new numbers.
#[derive(Drop)]
pub struct Renaming {
    used: Vec<bool>,
    numbers: Vec<u32>,
}

impl Renaming {
    /// No name is used yet.
    pub fn new(alloc: Global, names: &NameTable) -> Result<Renaming, AllocError> {
        let mut used = Vec::new(alloc);
        let mut numbers = Vec::new(alloc);
        for _ in 0..names.count() {
            used.push(false)?;
            numbers.push(0)?;
        }
        Ok(Renaming { used, numbers })
    }

    /// The name is used.
    pub fn note(&mut self, name: u32) {
        if let Some(mark) = self.used.get_mut(name as usize) {
            *mark = true;
        }
    }

    /// The names of a body are used.
    pub fn note_body(&mut self, body: &Option<Body>) {
        let Some(body) = body else {
            return;
        };
        for instr in &body.code {
            if let Some(name) = named(*instr) {
                self.note(name);
            }
        }
        for row in &body.rows {
            if row.what == 1 {
                self.note(row.ty);
            }
        }
    }

    /// The used names, in the order of their bytes; from now on each has its place there as its number.
    pub fn settle(&mut self, alloc: Global, names: &NameTable) -> Result<Vec<Vec<u8>>, AllocError> {
        let mut kept = Vec::new(alloc);
        for number in &names.order(alloc)? {
            let is_used = self.used.get(*number as usize).copied().unwrap_or(false);
            if is_used {
                let Ok(place) = u32::try_from(kept.len()) else {
                    return Err(AllocError);
                };
                if let Some(found) = self.numbers.get_mut(*number as usize) {
                    *found = place;
                }
                if let Some(name) = names.name(*number) {
                    kept.push(Vec::from_slice(alloc, name)?)?;
                }
            }
        }
        Ok(kept)
    }

    // The new number of a name.
    fn number(&self, name: u32) -> u32 {
        self.numbers.get(name as usize).copied().unwrap_or(0)
    }

    fn rename_row(&self, row: Row) -> Row {
        if row.what == 1 {
            Row {
                ty: self.number(row.ty),
                ..row
            }
        } else {
            row
        }
    }

    /// The body with the new numbers.
    pub fn rename_body(&self, body: &mut Option<Body>) {
        let Some(body) = body else {
            return;
        };
        for instr in body.code.iter_mut() {
            if let Some(name) = named(*instr) {
                *instr = renamed(*instr, self.number(name));
            }
        }
        for row in body.rows.iter_mut() {
            *row = self.rename_row(*row);
        }
    }
}
