//! Which bracket closes which.

ghost use Rattle.std.specs.Prelude.{◌≡◌, ◌≤◌, ◌<◌, ◌+◌, ℕ, List, length, true, false, IfOk, OnOk};
ghost use Rattle.cpp_syntax.specs.Balance.{IsPartner, partner_in, closes, terminal_in};
ghost use Rattle.cpp_syntax.specs.Pairing.{Paired};
ghost use Rattle.cpp_syntax.specs.FirstSets.{opens};
ghost use Rattle.cpp_syntax.specs.Terminals.{is_unbracketed};
ghost use Rattle.cpp_syntax.specs.declared.limits.TheConstants.{MAX_TOKENS};

use crate::terminal::Terminal;
use std::alloc::{AllocError, Global};

/// Whether a bracket closes another.
fn closes(opening: Terminal, closing: Terminal) -> bool
    ensures { result ≡ closes opening closing }
{
    match opening {
        Terminal::OpenParen => matches!(closing, Terminal::CloseParen),
        Terminal::OpenBracket => matches!(closing, Terminal::CloseBracket),
        Terminal::OpenBrace => matches!(closing, Terminal::CloseBrace),
        _ => false,
    }
}

/// Whether it is an opening bracket.
fn opens(terminal: Terminal) -> bool
    ensures { result ≡ opens terminal }
{
    matches!(
        terminal,
        Terminal::OpenParen | Terminal::OpenBracket | Terminal::OpenBrace
    )
}

/// The terminal at an index, or `End` behind the last.
fn terminal_in(terminals: &[Terminal], at: usize) -> Terminal
    ensures { result ≡ terminal_in terminals.now at }
{
    match terminals.get(at) {
        Some(terminal) => *terminal,
        None => Terminal::End,
    }
}

/// A table with the index of its partner for each bracket that one closes, and for each other token its own index.
pub(crate) fn partners(alloc: Global, terminals: &[Terminal]) -> Result<Vec<u32>, AllocError>
    requires { length terminals.now ≤ MAX_TOKENS }
    ensures { IfOk result (λ partners. (a : ℕ) → IsPartner terminals.now a (partner_in partners.items a)) }
{
    let mut partners = Vec::with_capacity(alloc, terminals.len())?;
    let mut opened = Vec::new(alloc);
    for at in 0..terminals.len() {
        step(&mut partners, &mut opened, terminals, at)?;
    }
    Ok(partners)
}

/// Reads the token at an index, before which some brackets are open.
fn step(
    partners: &mut Vec<u32>,
    opened: &mut Vec<usize>,
    terminals: &[Terminal],
    at: usize,
) -> Result<(), AllocError>
    requires inside { at < length terminals.now }
    requires few { length terminals.now ≤ MAX_TOKENS }
    requires paired { Paired terminals.now partners.old.items opened.old.items at at }
    ensures { OnOk result (Paired terminals.now partners.new.items opened.new.items (at + 1) (at + 1)) }
{
    if opens(terminal_in(terminals, at)) {
        return open(partners, opened, terminals, at);
    }
    pass(partners, opened, terminals, at);
    partners.push(at as u32)?;
    Ok(())
}

/// Opens the bracket at an index.
fn open(
    partners: &mut Vec<u32>,
    opened: &mut Vec<usize>,
    terminals: &[Terminal],
    at: usize,
) -> Result<(), AllocError>
    requires inside { at < length terminals.now }
    requires few { length terminals.now ≤ MAX_TOKENS }
    requires opening { opens (terminal_in terminals.now at) ≡ true }
    requires paired { Paired terminals.now partners.old.items opened.old.items at at }
    ensures { OnOk result (Paired terminals.now partners.new.items opened.new.items (at + 1) (at + 1)) }
{
    opened.push(at)?;
    partners.push(at as u32)?;
    Ok(())
}

/// Passes a token that opens no bracket.
fn pass(partners: &mut Vec<u32>, opened: &mut Vec<usize>, terminals: &[Terminal], at: usize)
    requires inside { at < length terminals.now }
    requires few { length terminals.now ≤ MAX_TOKENS }
    requires opening { opens (terminal_in terminals.now at) ≡ false }
    requires paired { Paired terminals.now partners.old.items opened.old.items at at }
    ensures { Paired terminals.now partners.new.items opened.new.items at (at + 1) }
{
    if !terminal_in(terminals, at).is_unbracketed() {
        close(partners, opened, terminals, at);
    }
}

/// Closes the last open bracket, or leaves all open ones without a partner where the token does not close that.
fn close(partners: &mut Vec<u32>, opened: &mut Vec<usize>, terminals: &[Terminal], at: usize)
    requires inside { at < length terminals.now }
    requires few { length terminals.now ≤ MAX_TOKENS }
    requires opening { opens (terminal_in terminals.now at) ≡ false }
    requires closing { is_unbracketed (terminal_in terminals.now at) ≡ false }
    requires paired { Paired terminals.now partners.old.items opened.old.items at at }
    ensures { Paired terminals.now partners.new.items opened.new.items at (at + 1) }
{
    let Some(last) = opened.pop() else {
        return;
    };
    if closes(terminal_in(terminals, last), terminal_in(terminals, at)) {
        partners[last] = at as u32;
    } else {
        opened.clear();
    }
}
