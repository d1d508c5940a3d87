//! Trees that are read one behind the other, with the bodies of lambdas apart from them.

ghost use Rattle.std.specs.Prelude.{◌≡◌, ◌≤◌, ◌+◌, ◌∷◌, ◌++◌, [], ℕ, List, Option, Some, None, false, length, take, drop, OnOk, OnErr, IfOk, option_map, if◌then◌else◌, nat_lt};
ghost use Rattle.cpp_ast.specs.declared.arena.Node.{Node};
ghost use Rattle.cpp_ast.specs.declared.arena.NodeId.{NodeId};
ghost use Rattle.cpp_ast.specs.Trees.{Extends};
ghost use Rattle.cpp_ast.specs.Orders.{are_below};
ghost use Rattle.cpp_syntax.specs.Derivations.{Read, no_read, reads_node, with_body_apart, declared_in};
ghost use Rattle.cpp_syntax.specs.View.{BuilderState, appended, count_trees, is_lambda, IsMark, BuiltTrees, builder_state, name_of};
ghost use Rattle.cpp_syntax.specs.Gathers.{first_at};
ghost use Rattle.cpp_ast.specs.declared.kinds.NodeKind.TheVariants.{Lambda};

use crate::arena::{from_index, gather, id_at, last_or_none, named_by};
use crate::positions::{Checkpoint, DeclaredName, OpenBody};
use cpp_ast::{At, NodeId, NodeKind, Nodes};
use std::alloc::{AllocError, Global};
use std::marker::Model;

/// Trees that are read one behind the other: their nodes stand behind those that were there before.
#[derive(Drop)]
pub struct Builder {
    alloc: Global,
    nodes: Nodes,
    /// How many nodes were there before.
    base: u32,
    /// The roots of the trees.
    pending: Vec<NodeId>,
    /// How many bodies there are up to each tree.
    totals: Vec<usize>,
    bodies: Vec<OpenBody>,
    /// The furthest index at which something else was expected.
    furthest_failure: usize,
}

impl Model for Builder {
    ghost use Rattle.cpp_syntax.specs.View.{BuilderState, builder_state, IsBuilt};
    ghost use Rattle.std.specs.Coded.{codes};
    ghost use Rattle.cpp_syntax.specs.Codes.{trees_code};

    ghost Value = { BuilderState };

    ghost coded = { Prim.hlevel (codes, trees_code) };

    ghost view = { λ b. builder_state b.base b.nodes b.pending.items b.bodies.items };

    ghost invariant = { λ b. IsBuilt b.base b.nodes b.pending.items b.totals.items b.bodies.items };
}

/// What a builder is made of.
#[derive(Drop)]
pub struct Parts {
    /// The nodes that were there before, and behind them those of the trees.
    pub nodes: Nodes,
    /// The roots of the trees.
    pub roots: Vec<NodeId>,
    /// The bodies of the lambdas in the trees, in the order in which the lambdas end.
    pub bodies: Vec<OpenBody>,
}

impl Builder {
    /// A builder that has read nothing, over the nodes that are there. It takes no memory.
    pub fn over(alloc: Global, nodes: Nodes) -> Builder
        ensures base { result.base ≡ nodes }
        ensures nothing { result.read ≡ no_read }
    {
        Builder {
            alloc,
            base: nodes.len(),
            nodes,
            pending: Vec::new(alloc),
            totals: Vec::new(alloc),
            bodies: Vec::new(alloc),
            furthest_failure: 0,
        }
    }

    /// The nodes, the roots of the trees and the bodies.
    pub fn into_parts(self) -> Parts
        ensures built { self ≡ builder_state (length self.base) result.nodes result.roots.items result.bodies.items }
        ensures grown { Extends self.base result.nodes }
        ensures shown { BuiltTrees (length self.base) result.nodes result.roots.items result.bodies.items }
    {
        Parts {
            nodes: self.nodes,
            roots: self.pending,
            bodies: self.bodies,
        }
    }

    /// Notes that nothing goes on at an index.
    pub fn expected_at(&mut self, at: usize)
        ensures { self.new ≡ self.old }
    {
        self.furthest_failure = self.furthest_failure.max(at);
    }

    /// The furthest index at which something else was expected.
    pub fn furthest_failure(&self) -> usize {
        self.furthest_failure
    }

    /// The index behind all that is read.
    pub fn checkpoint(&self) -> Checkpoint
        ensures { IsMark result self.now }
    {
        Checkpoint {
            trees: self.pending.len(),
        }
    }

    /// Reads a node with no kids.
    pub fn leaf(&mut self, kind: NodeKind, at: At, token: Option<u32>) -> Result<(), AllocError>
        requires { is_lambda kind ≡ false }
        ensures added { OnOk result (self.new ≡ appended self.old (reads_node kind at token no_read)) }
        ensures memory { OnErr result (self.new ≡ self.old) }
    {
        let start = self.checkpoint().trees;
        self.node(start, kind, at, token)?;
        Ok(())
    }

    /// Makes one node of the trees from an index on, which become its kids.
    pub fn node(
        &mut self,
        start: usize,
        kind: NodeKind,
        at: At,
        token: Option<u32>,
    ) -> Result<(), AllocError>
        requires { is_lambda kind ≡ false }
        ensures gathered { OnOk result ((before : BuilderState) (got : Read) → self.old ≡ appended before got → count_trees before.read.trees ≡ start → self.new ≡ appended before (reads_node kind at token got)) }
        ensures memory { OnErr result (self.new ≡ self.old) }
    {
        self.totals.reserve(1)?;
        gather(
            self.alloc,
            &mut self.nodes,
            &mut self.pending,
            start,
            kind,
            at,
            token,
        )?;
        self.totals.truncate(start);
        self.totals.push_reserved(self.bodies.len());
        Ok(())
    }

    /// Makes a lambda of the trees from an index on, with its body apart: the tokens from one index to another.
    pub fn lambda(
        &mut self,
        start: usize,
        at: At,
        token: u32,
        from: u32,
        to: u32,
    ) -> Result<(), AllocError>
        ensures gathered { OnOk result ((before : BuilderState) (got : Read) → self.old ≡ appended before got → count_trees before.read.trees ≡ start → self.new ≡ appended before (with_body_apart Lambda at token from to got)) }
        ensures memory { OnErr result (self.new ≡ self.old) }
    {
        self.totals.reserve(1)?;
        self.bodies.reserve(1)?;
        let lam = gather(
            self.alloc,
            &mut self.nodes,
            &mut self.pending,
            start,
            NodeKind::Lambda,
            at,
            Some(token),
        )?;
        self.bodies.push_reserved(OpenBody { lam, from, to });
        self.totals.truncate(start);
        self.totals.push_reserved(self.bodies.len());
        Ok(())
    }

    /// Cuts off what was read behind a mark.
    pub fn cut(&mut self, mark: Checkpoint)
        ensures { (before : BuilderState) (got : Read) → IsMark mark before → self.old ≡ appended before got → self.new ≡ before }
    {
        self.pending.truncate(mark.trees);
        self.totals.truncate(mark.trees);
        self.bodies.truncate(last_or_none(&self.totals));
    }

    /// The name that the first of the trees from an index on declares which is of a declarator.
    pub fn declared(&self, start: usize) -> Option<DeclaredName>
        ensures { (before : BuilderState) (got : Read) → self.now ≡ appended before got → count_trees before.read.trees ≡ start → option_map name_of result ≡ declared_in got.trees }
    {
        named_by(&self.nodes, from_index(&self.pending, start))
    }

    /// The position of the first tree from an index on, or `other` where there is none.
    pub fn first_position(&self, start: usize, other: At) -> At
        ensures { (before : BuilderState) (got : Read) → self.now ≡ appended before got → count_trees before.read.trees ≡ start → result ≡ first_at other got.trees }
    {
        match id_at(&self.pending, start) {
            Some(id) => self.nodes.node(id).at,
            None => other,
        }
    }
}
