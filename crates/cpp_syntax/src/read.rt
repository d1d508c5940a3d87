//! The nodes that readers of forms make.

ghost use Rattle.std.specs.Prelude.{◌≡◌, ◌+◌, ◌<◌, IfOk, OnOk, OnErr, Some, false, length};
ghost use Rattle.cpp_syntax.specs.Source.{position_at};
ghost use Rattle.cpp_syntax.specs.Derivations.{Read, no_read, reads_node, position_of_first, positioned};
ghost use Rattle.cpp_syntax.specs.Rules.{at_name};
ghost use Rattle.cpp_syntax.specs.Parsed.{ReadsLeaf};
ghost use Rattle.cpp_syntax.specs.View.{BuilderState, appended, is_lambda, IsMark};

use crate::builder::Builder;
use crate::names::TypeNames;
use crate::positions::Checkpoint;
use cpp_ast::NodeKind;
use std::alloc::AllocError;

/// A node that is the token at an index. It answers the index behind it.
pub fn leaf(
    text: &TypeNames,
    at: usize,
    kind: NodeKind,
    out: &mut Builder,
) -> Result<usize, AllocError>
    requires inside { at < length text.now.terminals }
    requires kind { is_lambda kind ≡ false }
    ensures { ReadsLeaf text.now at kind out.old out.new result }
{
    out.leaf(kind, text.position(at), Some(at as u32))?;
    Ok(at + 1)
}

/// A node that begins at an index, of the trees that were read since the start.
pub fn node(
    text: &TypeNames,
    at: usize,
    kind: NodeKind,
    token: Option<u32>,
    start: Checkpoint,
    out: &mut Builder,
) -> Result<(), AllocError>
    requires { is_lambda kind ≡ false }
    ensures read { OnOk result ((before : BuilderState) (got : Read) → IsMark start before → out.old ≡ appended before got → out.new ≡ appended before (reads_node kind (position_at text.now at) token got)) }
    ensures memory { OnErr result (out.new ≡ out.old) }
{
    out.node(start.trees, kind, text.position(at), token)
}

/// A node round all trees that were read since the start, which has its position where the first of them has.
pub fn wrap(
    text: &TypeNames,
    at: usize,
    kind: NodeKind,
    token: u32,
    start: Checkpoint,
    out: &mut Builder,
) -> Result<(), AllocError>
    requires { is_lambda kind ≡ false }
    ensures read { OnOk result ((before : BuilderState) (got : Read) → IsMark start before → out.old ≡ appended before got → out.new ≡ appended before (reads_node kind (position_of_first text.now at got.trees) (Some token) got)) }
    ensures memory { OnErr result (out.new ≡ out.old) }
{
    let position = out.first_position(start.trees, text.position(at));
    out.node(start.trees, kind, position, Some(token))
}

/// Such a node, which has its position where the name begins that its kids declare, if they declare one.
pub fn node_at_name(
    text: &TypeNames,
    at: usize,
    kind: NodeKind,
    token: Option<u32>,
    start: Checkpoint,
    out: &mut Builder,
) -> Result<(), AllocError>
    requires { is_lambda kind ≡ false }
    ensures read { OnOk result ((before : BuilderState) (got : Read) → IsMark start before → out.old ≡ appended before got → out.new ≡ appended before (reads_node kind (positioned at_name text.now at token got.trees) token got)) }
    ensures memory { OnErr result (out.new ≡ out.old) }
{
    let position = match out.declared(start.trees) {
        Some(name) => text.position(name.first as usize),
        None => text.position(at),
    };
    out.node(start.trees, kind, position, token)
}
