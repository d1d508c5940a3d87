// Classes: their heads, their members, and behind the brace what stands in these (C++14 clause 9, 9.2 p2).

ghost use Rattle.std.specs.Prelude.{◌≡◌, length, true};
ghost use Rattle.elab_entry.specs.cpp_ast.Orders.{are_below};
ghost use Rattle.elab_entry.specs.cpp_lex.Tokens.{lexemes_of};
ghost use Rattle.elab_entry.specs.elab_rules.Members.{declared_only};
ghost use Rattle.elab_entry.specs.elab_types.Syntax.{syntax_of, trees_at};
ghost use Rattle.elab_entry.specs.elab_scopes.States.{state_of};
ghost use Rattle.elab_members.specs.Whole.{Stands, class_defined as class_defined_of};

use crate::declarations::all_defaults;
use crate::late::all_late;
use class_table::{class_read, members_among};
use elab_implicit::below::{At, ElabFault, MakeLambdas, NodeId, Nodes, State, Tokens};
use std::alloc::Global;

/// A class that is only declared.
pub fn class_declared(alloc: Global, st: &mut State, at: At, name: &[u8]) -> Result<(), ElabFault>
    ensures { Stands st.old st.new result (declared_only (state_of st.old) at name.now) }
{
    let _class = class_table::class_declared(alloc, &mut st.env, at, name)?;
    Ok(())
}

/// A class that is defined, by the kids of its node: all initialisers of its members are made before the bodies, which
/// use them.
pub fn class_defined<L: MakeLambdas>(
    alloc: Global,
    lams: &L,
    tokens: &Tokens,
    nodes: &Nodes,
    st: &mut State,
    at: At,
    name: &[u8],
    kids: &[NodeId],
) -> Result<(), ElabFault>
    requires { are_below (length nodes.now) kids.now ≡ true }
    ensures { Stands st.old st.new result (class_defined_of (L.lambdas lams.now) (lexemes_of tokens.now) (state_of st.old) at name.now (trees_at (syntax_of nodes.now) kids.now)) }
{
    let home = class_read(
        alloc,
        &mut st.env,
        tokens,
        nodes,
        at,
        name,
        kids,
        &mut st.work,
    )?;
    let members = members_among(nodes, kids);
    all_defaults(alloc, lams, tokens, nodes, st, home.number, members)?;
    all_late(alloc, lams, tokens, nodes, st, &home, members)?;
    Ok(())
}
