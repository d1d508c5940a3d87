// One part of an object in a constructor, by the values that are written for it (C++14 12.6.2).

ghost use Rattle.std.specs.Prelude.{◌≡◌, ◌<◌, length, true};
ghost use Rattle.elab_entry.specs.cpp_types.Typ.{typ_of};
ghost use Rattle.elab_entry.specs.cpp_ast.Orders.{are_below};
ghost use Rattle.elab_entry.specs.cpp_lex.Tokens.{lexemes_of};
ghost use Rattle.elab_entry.specs.cpp_tree.Arena.{trees_of};
ghost use Rattle.elab_entry.specs.elab_ctx.Ctx.{ctx_of, work_of};
ghost use Rattle.elab_entry.specs.elab_ctx.Operands.{are_in, operands_in};
ghost use Rattle.elab_entry.specs.elab_ctx.Says.{Makes};
ghost use Rattle.elab_entry.specs.elab_rules.Statements.{directly_initialised as directly_initialised_of};
ghost use Rattle.elab_entry.specs.elab_rules.Members.{for_part};
ghost use Rattle.elab_entry.specs.elab_types.Syntax.{syntax_of, trees_at};
ghost use Rattle.elab_entry.specs.elab_scopes.States.{state_of, made};
ghost use Rattle.elab_entry.specs.elab_scopes.Says.{Does};
ghost use Rattle.elab_members.specs.Giving.{made_base, part_made as part_made_of, part_values as part_values_of, part_given as part_given_of};

use elab_implicit::below::{
    At, ElabFault, Env, MakeLambdas, NodeId, Nodes, Operand, State, TNodeId, Tokens, Ty, Work,
    all_lambdas, directly_initialised, full, values, values_place,
};
use elab_implicit::given::{allow_base, restore_base};
use elab_implicit::parts::base_of_class;
use std::alloc::Global;

// The class that is made as a base, where the part is the base.
fn base_for(env: &Env, class: u32, member: Option<u32>) -> Option<u32>
    ensures { result ≡ made_base (ctx_of env.now) class member }
{
    match member {
        Some(_) => None,
        None => base_of_class(env, class),
    }
}

// A part by values, where an object of an abstract class may be made as a base.
fn part_initialised(
    alloc: Global,
    env: &mut Env,
    work: &mut Work,
    class: u32,
    member: Option<u32>,
    ty: &Ty,
    at: At,
    os: &[Operand],
) -> Result<TNodeId, ElabFault>
    requires { are_in (length (trees_of work.old.nodes.items)) os.now ≡ true }
    ensures ctx { ctx_of env.new ≡ ctx_of env.old }
    ensures made { Makes (trees_of work.old.nodes.items) (trees_of work.new.nodes.items) (work_of work.new) result (directly_initialised_of (for_part (ctx_of env.old) class member) (work_of work.old) (typ_of ty.now) at (operands_in (trees_of work.old.nodes.items) os.now)) }
{
    let base = base_for(env, class, member);
    let was = allow_base(env, base);
    let made = directly_initialised(alloc, env, work, ty, at, os);
    restore_base(env, base, was);
    made
}

// A part by values that were read.
fn part_made(
    alloc: Global,
    st: &mut State,
    class: u32,
    member: Option<u32>,
    ty: &Ty,
    at: At,
    os: &[Operand],
) -> Result<TNodeId, ElabFault>
    requires { are_in (length (made st.old)) os.now ≡ true }
    ensures { Does st.old st.new result (part_made_of (state_of st.old) class member (typ_of ty.now) at (operands_in (made st.old) os.now)) }
{
    let whole = values_place(&st.work.nodes, ty, at, os);
    let made = part_initialised(alloc, &mut st.env, &mut st.work, class, member, ty, at, os)?;
    let init = full(alloc, &mut st.work.nodes, whole, made)?;
    st.env.closures.clear();
    Ok(init)
}

// A part by values, which are kids of a node.
fn part_values(
    alloc: Global,
    tokens: &Tokens,
    nodes: &Nodes,
    st: &mut State,
    class: u32,
    member: Option<u32>,
    ty: &Ty,
    at: At,
    parent: NodeId,
    ids: &[NodeId],
) -> Result<TNodeId, ElabFault>
    requires within { parent.0 < length nodes.now }
    requires lower { are_below parent.0 ids.now ≡ true }
    ensures { Does st.old st.new result (part_values_of (lexemes_of tokens.now) (state_of st.old) class member (typ_of ty.now) at (trees_at (syntax_of nodes.now) ids.now)) }
{
    let os = values(alloc, &st.env, tokens, nodes, parent, ids, &mut st.work)?;
    part_made(alloc, st, class, member, ty, at, &os)
}

/// A part by the values that are kids of a node, behind their lambdas.
pub fn part_given<L: MakeLambdas>(
    alloc: Global,
    lams: &L,
    tokens: &Tokens,
    nodes: &Nodes,
    st: &mut State,
    class: u32,
    member: Option<u32>,
    ty: &Ty,
    at: At,
    parent: NodeId,
    ids: &[NodeId],
) -> Result<TNodeId, ElabFault>
    requires within { parent.0 < length nodes.now }
    requires lower { are_below parent.0 ids.now ≡ true }
    ensures { Does st.old st.new result (part_given_of (L.lambdas lams.now) (lexemes_of tokens.now) (state_of st.old) class member (typ_of ty.now) at (trees_at (syntax_of nodes.now) ids.now)) }
{
    all_lambdas(alloc, lams, tokens, nodes, parent, ids, st)?;
    part_values(alloc, tokens, nodes, st, class, member, ty, at, parent, ids)
}
