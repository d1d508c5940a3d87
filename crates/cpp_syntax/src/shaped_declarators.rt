//! The shapes of declarators and of parameters.

ghost use Rattle.std.specs.Prelude.{◌≡◌, ◌+◌, true};
ghost use Rattle.cpp_ast.specs.declared.kinds.NodeKind.TheVariants.{CvQualifier};
ghost use Rattle.cpp_syntax.specs.Terminals.{const_word};
ghost use Rattle.cpp_syntax.specs.Names.{naming_of};
ghost use Rattle.cpp_syntax.specs.Rules.{Naming as GrammarNaming, by_shape, either, form, many, optional, declarator, direct_declarator, parameter_declaration, parameter_declaration_clause, function_qualifiers};
ghost use Rattle.cpp_syntax.specs.Grammar.{leaf, tx_qualifier, noexcept_specification, parameter_list, parenthesized_declarator, suffix};
ghost use Rattle.cpp_syntax.specs.Derivations.{Read};
ghost use Rattle.cpp_syntax.specs.Shapes.{Spans, SpansBehind, Recognised, RecognisedBehind, AlwaysRecognised, ParametersPassed, ParametersFound, KnownFrom, HeadFound, IdFound, is_outside_blocks};

use crate::naming::Naming;
use crate::outline::Outline;
use crate::shapes::descend;
use crate::terminal::Terminal;
use std::alloc::AllocError;

impl Outline {
    /// A declarator.
    #[cycle(shaped_declarators)]
    pub fn shaped_declarator(
        &self,
        parameters: &Vec<u32>,
        at: usize,
        naming: Naming,
        depth_left: u32,
    ) -> Result<Option<usize>, AllocError>
        requires known { KnownFrom self.now parameters.now.items at }
        requires outside { is_outside_blocks (naming_of naming) ≡ true }
        ensures { Recognised self.now (form (declarator by_shape (naming_of naming))) at result }
    {
        if self.is_at(at, Terminal::Star) {
            let behind = self.behind_cv_qualifiers(at + 1);
            return self.shaped_declarator(parameters, behind, naming, descend(depth_left)?);
        }
        if self.is_at(at, Terminal::Amp) {
            return self.shaped_declarator(parameters, at + 1, naming, descend(depth_left)?);
        }
        self.shaped_direct_declarator(parameters, at, naming, depth_left)
    }

    /// A declarator without `*` and `&` before it.
    #[cycle(shaped_declarators)]
    fn shaped_direct_declarator(
        &self,
        parameters: &Vec<u32>,
        at: usize,
        naming: Naming,
        depth_left: u32,
    ) -> Result<Option<usize>, AllocError>
        requires known { KnownFrom self.now parameters.now.items at }
        requires outside { is_outside_blocks (naming_of naming) ≡ true }
        ensures { Recognised self.now (form (direct_declarator by_shape (naming_of naming))) at result }
    {
        let Some(head) = self.shaped_declarator_head(parameters, at, naming, depth_left)? else {
            return Ok(None);
        };
        Ok(Some(self.behind_suffixes(parameters, head)))
    }

    /// A declared name, a declarator in parentheses, or nothing.
    #[cycle(shaped_declarators)]
    fn shaped_declarator_head(
        &self,
        parameters: &Vec<u32>,
        at: usize,
        naming: Naming,
        depth_left: u32,
    ) -> Result<Option<usize>, AllocError>
        requires known { KnownFrom self.now parameters.now.items at }
        requires outside { is_outside_blocks (naming_of naming) ≡ true }
        ensures { HeadFound self.now (naming_of naming) at result }
    {
        if let Some(behind) = self.behind_declarator_id(naming, at) {
            return Ok(Some(behind));
        }
        let Some(behind) = self.shaped_group(parameters, at, naming, depth_left)? else {
            return Ok(naming.if_need_not_name(at));
        };
        Ok(Some(behind))
    }

    /// A declared name, where a declarator may have one.
    fn behind_declarator_id(&self, naming: Naming, at: usize) -> Option<usize>
        ensures { IdFound self.now (naming_of naming) at result }
    {
        if !naming.may_be_named() {
            return None;
        }
        if self.is_name_at(at) {
            return Some(at + 1);
        }
        if self.is_qualified_name(at) {
            return Some(at + 3);
        }
        None
    }

    /// A declarator in parentheses.
    #[cycle(shaped_declarators)]
    fn shaped_group(
        &self,
        parameters: &Vec<u32>,
        at: usize,
        naming: Naming,
        depth_left: u32,
    ) -> Result<Option<usize>, AllocError>
        requires known { KnownFrom self.now parameters.now.items at }
        requires outside { is_outside_blocks (naming_of naming) ≡ true }
        ensures { Recognised self.now (parenthesized_declarator by_shape (naming_of naming)) at result }
    {
        if !self.is_at(at, Terminal::OpenParen) {
            return Ok(None);
        }
        let Some(close) = self.shaped_declarator(parameters, at + 1, naming, descend(depth_left)?)?
        else {
            return Ok(None);
        };
        if close == at + 1 {
            return Ok(None);
        }
        if !self.is_at(close, Terminal::CloseParen) {
            return Ok(None);
        }
        Ok(Some(close + 1))
    }

    /// Any number of bounds and parameters behind a declarator.
    fn behind_suffixes(&self, parameters: &Vec<u32>, at: usize) -> usize
        requires known { KnownFrom self.now parameters.now.items at }
        ensures { (naming : GrammarNaming) → (read : Read) → SpansBehind self.now (many (suffix by_shape naming)) read at result }
    {
        let mut next = at;
        'suffixes: loop {
            let Some(behind) = self.behind_suffix(parameters, next) else {
                return next;
            };
            next = behind;
        }
    }

    /// A bound or parameters behind a declarator.
    fn behind_suffix(&self, parameters: &Vec<u32>, at: usize) -> Option<usize>
        requires known { KnownFrom self.now parameters.now.items at }
        ensures { (naming : GrammarNaming) → (read : Read) → RecognisedBehind self.now (suffix by_shape naming) read at result }
    {
        if self.is_at(at, Terminal::OpenBracket) {
            let Some(close) = self.partner(at) else {
                return None;
            };
            return Some(close + 1);
        }
        let Some(behind) = self.behind_parameters(parameters, at) else {
            return None;
        };
        Some(self.behind_function_qualifiers(behind))
    }

    /// The index behind the `)` of parameters in parentheses at an index, where they are known.
    pub fn behind_parameters(&self, parameters: &Vec<u32>, at: usize) -> Option<usize>
        requires known { KnownFrom self.now parameters.now.items at }
        ensures { ParametersPassed self.now at result }
    {
        match parameters.get(at) {
            Some(close) if *close as usize > at => Some(*close as usize + 1),
            _ => None,
        }
    }

    /// `const`, a word of transactions and `noexcept`, each of which may be left out.
    fn behind_function_qualifiers(&self, at: usize) -> usize
        ensures { Spans self.now (form function_qualifiers) at result }
    {
        self.behind_noexcept(self.behind_safety(self.behind_const(at)))
    }

    fn behind_const(&self, at: usize) -> usize
        ensures { Spans self.now (optional (leaf CvQualifier const_word)) at result }
    {
        if self.is_at(at, Terminal::Const) {
            at + 1
        } else {
            at
        }
    }

    fn behind_safety(&self, at: usize) -> usize
        ensures { Spans self.now (optional tx_qualifier) at result }
    {
        if self.is_safety_at(at) { at + 1 } else { at }
    }

    fn behind_noexcept(&self, at: usize) -> usize
        ensures { Spans self.now (optional noexcept_specification) at result }
    {
        if self.is_at(at, Terminal::Noexcept) {
            at + 1
        } else {
            at
        }
    }

    /// Parameters without their parentheses.
    fn shaped_parameters(
        &self,
        parameters: &Vec<u32>,
        at: usize,
        depth_left: u32,
    ) -> Result<usize, AllocError>
        requires known { KnownFrom self.now parameters.now.items at }
        ensures { AlwaysRecognised self.now (form (parameter_declaration_clause by_shape)) at result }
    {
        match self.shaped_parameter_list(parameters, at, depth_left)? {
            Some(next) => Ok(next),
            None => Ok(at),
        }
    }

    /// Parameters with commas between them.
    fn shaped_parameter_list(
        &self,
        parameters: &Vec<u32>,
        at: usize,
        depth_left: u32,
    ) -> Result<Option<usize>, AllocError>
        requires known { KnownFrom self.now parameters.now.items at }
        ensures { Recognised self.now (parameter_list by_shape) at result }
    {
        let Some(first) = self.shaped_parameter(parameters, at, depth_left)? else {
            return Ok(None);
        };
        let mut next = first;
        'items: while self.is_at(next, Terminal::Comma) {
            let Some(behind) = self.shaped_parameter(parameters, next + 1, depth_left)? else {
                return Ok(Some(next));
            };
            next = behind;
        }
        Ok(Some(next))
    }

    /// A parameter.
    fn shaped_parameter(
        &self,
        parameters: &Vec<u32>,
        at: usize,
        depth_left: u32,
    ) -> Result<Option<usize>, AllocError>
        requires known { KnownFrom self.now parameters.now.items at }
        ensures { Recognised self.now (form (parameter_declaration by_shape)) at result }
    {
        let Some(behind) = self.shaped_type_specifier_seq(parameters, at, depth_left)? else {
            return Ok(None);
        };
        self.shaped_declarator(parameters, behind, Naming::Either, depth_left)
    }

    /// The index of the `)` behind parameters in parentheses at an index, where those behind it are known.
    pub fn parameters_in_parentheses(
        &self,
        parameters: &Vec<u32>,
        at: usize,
        depth_left: u32,
    ) -> Result<Option<usize>, AllocError>
        requires known { KnownFrom self.now parameters.now.items (at + 1) }
        ensures { ParametersFound self.now at result }
    {
        if !self.is_at(at, Terminal::OpenParen) {
            return Ok(None);
        }
        let close = self.shaped_parameters(parameters, at + 1, depth_left)?;
        if !self.is_at(close, Terminal::CloseParen) {
            return Ok(None);
        }
        Ok(Some(close))
    }
}
