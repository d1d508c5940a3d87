// The bodies of members (C++14 9.3, 12.1, 12.4).

ghost use Rattle.std.specs.Prelude.{◌≡◌, ◌<◌, length, true};
ghost use Rattle.elab_entry.specs.cpp_ast.Orders.{are_below};
ghost use Rattle.elab_entry.specs.cpp_lex.Tokens.{lexemes_of};
ghost use Rattle.elab_entry.specs.cpp_types.Typ.{typ_of};
ghost use Rattle.elab_entry.specs.elab_rules.Members.{this_type as this_type_of};
ghost use Rattle.elab_entry.specs.elab_types.Syntax.{syntax_of, tree_at, trees_at};
ghost use Rattle.elab_entry.specs.elab_scopes.States.{state_of};
ghost use Rattle.elab_entry.specs.elab_scopes.Says.{Changes};
ghost use Rattle.class_members.specs.Shown.{header_of};
ghost use Rattle.elab_members.specs.Bodies.{body_by_kind as body_by_kind_of, method_body as method_body_of};

use crate::constructors::constructor_body;
use crate::destructors::destructor_body;
use class_members::defines_well;
use elab_implicit::below::{
    ElabFault, FuncKind, Header, MakeLambdas, NodeId, Nodes, Shape, State, Tokens, Ty,
    function_body,
};
use std::alloc::Global;

/// The type of the object of a member function.
fn this_type(class: u32, header: &Header) -> Ty
    ensures { typ_of result ≡ this_type_of class (header_of header.now) }
{
    Ty {
        shape: Shape::Class(class),
        is_const: header.qualifiers.is_const,
        is_volatile: false,
    }
}

// The body of a member of a class, by the kind of its function.
fn body_by_kind<L: MakeLambdas>(
    alloc: Global,
    lams: &L,
    tokens: &Tokens,
    nodes: &Nodes,
    st: &mut State,
    class: u32,
    func: u32,
    kind: FuncKind,
    header: &Header,
    rest: &[NodeId],
    body: NodeId,
) -> Result<(), ElabFault>
    requires rest { are_below (length nodes.now) rest.now ≡ true }
    requires body { body.0 < length nodes.now }
    ensures { Changes st.old st.new result (body_by_kind_of (L.lambdas lams.now) (lexemes_of tokens.now) (state_of st.old) class func kind (header_of header.now) (trees_at (syntax_of nodes.now) rest.now) (tree_at (syntax_of nodes.now) body)) }
{
    match kind {
        FuncKind::Constructor => constructor_body(
            alloc, lams, tokens, nodes, st, class, func, header, rest, body,
        ),
        FuncKind::Destructor => destructor_body(
            alloc, lams, tokens, nodes, st, class, func, header, body,
        ),
        FuncKind::Plain | FuncKind::ClosureCall => {
            let this = Some(this_type(class, header));
            function_body(alloc, lams, tokens, nodes, st, header, this, func, body)
        }
    }
}

/// The body of a member of a class, with what stands between its declarator and that.
pub fn method_body<L: MakeLambdas>(
    alloc: Global,
    lams: &L,
    tokens: &Tokens,
    nodes: &Nodes,
    st: &mut State,
    class: u32,
    func: u32,
    kind: FuncKind,
    header: &Header,
    rest: &[NodeId],
    body: NodeId,
) -> Result<(), ElabFault>
    requires rest { are_below (length nodes.now) rest.now ≡ true }
    requires body { body.0 < length nodes.now }
    ensures { Changes st.old st.new result (method_body_of (L.lambdas lams.now) (lexemes_of tokens.now) (state_of st.old) class func kind (header_of header.now) (trees_at (syntax_of nodes.now) rest.now) (tree_at (syntax_of nodes.now) body)) }
{
    defines_well(alloc, header)?;
    body_by_kind(
        alloc, lams, tokens, nodes, st, class, func, kind, header, rest, body,
    )
}
