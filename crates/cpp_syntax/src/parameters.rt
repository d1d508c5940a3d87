//! Which parentheses hold parameters by their shape.

ghost use Rattle.std.specs.Prelude.{◌≡◌, ◌+◌, ◌≤◌, ◌<◌, ℕ, get_or, length, IfOk, OnOk, true};
ghost use Rattle.cpp_syntax.specs.Shapes.{KnownFrom, KnownBelow, OwnIndices};
ghost use Rattle.cpp_syntax.specs.declared.limits.TheConstants.{MAX_TOKENS};

use crate::limits::MAX_NESTED_SHAPES;
use crate::outline::Outline;
use std::alloc::{AllocError, Global};

impl Outline {
    /// A table with the index of the `)` behind its parameters for each `(` before some, and for each other token its own
    /// index.
    pub fn table_of_parameters(&self, alloc: Global) -> Result<Vec<u32>, AllocError>
        ensures { IfOk result (λ parameters. KnownFrom self.now parameters.items 0) }
    {
        let mut parameters = own_indices(alloc, self.len())?;
        for down in 0..self.len() {
            self.find_parameters(&mut parameters, self.len() - 1 - down)?;
        }
        Ok(parameters)
    }

    /// Notes whether parameters stand in parentheses at an index, where they are known behind it.
    fn find_parameters(&self, parameters: &mut Vec<u32>, at: usize) -> Result<(), AllocError>
        requires here { at < length self.now.terminals }
        requires few { length self.now.terminals ≤ MAX_TOKENS }
        requires known { KnownBelow self.now parameters.old.items (at + 1) }
        ensures { IfOk result (λ _. KnownBelow self.now parameters.new.items at) }
    {
        if let Some(close) = self.parameters_in_parentheses(parameters, at, MAX_NESTED_SHAPES)? {
            parameters[at] = close as u32;
        }
        Ok(())
    }
}

/// The numbers below one.
fn own_indices(alloc: Global, len: usize) -> Result<Vec<u32>, AllocError>
    requires few { len ≤ MAX_TOKENS }
    ensures { IfOk result (λ indices. OwnIndices indices.items len) }
{
    let mut indices = Vec::with_capacity(alloc, len)?;
    for at in 0..len {
        indices.push(at as u32)?;
    }
    Ok(indices)
}
