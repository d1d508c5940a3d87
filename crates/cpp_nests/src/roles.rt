//! What a token does to the nest of constructs that are open.

ghost use Rattle.std.specs.Prelude.{◌≡◌, map};
ghost use Rattle.cpp_lex.specs.Tokens.{lexeme_of};
ghost use Rattle.cpp_nests.specs.Roles.{role_by, key_role, punct_role, role_of, spelled_of};

use cpp_lex::{TokKind, Token};

/// A construct that is open.
#[derive(Clone, Copy, Debug, PartialEq, Eq)]
pub enum Opened {
    /// An operator before its operand, or between two.
    Operator,
    /// `=`, a compound assignment, `throw`, or `? :` behind its colon.
    Assignment,
    /// `? :` before its colon.
    Choice,
    /// A statement whose last part is a statement; an `if` behind its `else`.
    Statement,
    /// An `if` before its `else`, if it has one.
    If,
    /// A pair of brackets.
    Bracket,
}

/// What a token does to the nest.
#[derive(Clone, Copy, Debug, PartialEq, Eq)]
pub enum Role {
    /// It opens a construct.
    Opens(Opened),
    /// It is an operand, behind which operators end.
    Operand,
    /// It closes a bracket: `)` or `]`.
    Closes,
    /// It closes a bracket and may end a statement: `}`.
    EndsBlock,
    /// It ends a statement: `;`.
    Ends,
    /// It ends an expression: `,`.
    Separates,
    /// `:`.
    Divides,
    /// `else`.
    Else,
    /// Nothing.
    Silent,
}

const KEYS: [(&[u8], Role); 11] = [
    (b"if", Role::Opens(Opened::If)),
    (b"else", Role::Else),
    (b"while", Role::Opens(Opened::Statement)),
    (b"do", Role::Opens(Opened::Statement)),
    (b"for", Role::Opens(Opened::Statement)),
    (b"case", Role::Opens(Opened::Statement)),
    (b"default", Role::Opens(Opened::Statement)),
    (b"throw", Role::Opens(Opened::Assignment)),
    (b"sizeof", Role::Opens(Opened::Operator)),
    (b"const", Role::Silent),
    (b"volatile", Role::Silent),
];

const PUNCTS: [(&[u8], Role); 27] = [
    (b"(", Role::Opens(Opened::Bracket)),
    (b"[", Role::Opens(Opened::Bracket)),
    (b"{", Role::Opens(Opened::Bracket)),
    (b")", Role::Closes),
    (b"]", Role::Closes),
    (b"}", Role::EndsBlock),
    (b";", Role::Ends),
    (b",", Role::Separates),
    (b":", Role::Divides),
    (b"?", Role::Opens(Opened::Choice)),
    (b"!", Role::Opens(Opened::Operator)),
    (b"~", Role::Opens(Opened::Operator)),
    (b"+", Role::Opens(Opened::Operator)),
    (b"-", Role::Opens(Opened::Operator)),
    (b"*", Role::Opens(Opened::Operator)),
    (b"&", Role::Opens(Opened::Operator)),
    (b"=", Role::Opens(Opened::Assignment)),
    (b"+=", Role::Opens(Opened::Assignment)),
    (b"-=", Role::Opens(Opened::Assignment)),
    (b"*=", Role::Opens(Opened::Assignment)),
    (b"/=", Role::Opens(Opened::Assignment)),
    (b"%=", Role::Opens(Opened::Assignment)),
    (b"^=", Role::Opens(Opened::Assignment)),
    (b"&=", Role::Opens(Opened::Assignment)),
    (b"|=", Role::Opens(Opened::Assignment)),
    (b"<<=", Role::Opens(Opened::Assignment)),
    (b">>=", Role::Opens(Opened::Assignment)),
];

/// The role of a spelling by a table, or otherwise.
fn role_by(rows: &[(&[u8], Role)], word: &[u8], otherwise: Role) -> Role
    ensures { result ≡ role_by (map spelled_of rows.now) word.now otherwise }
{
    for row in rows {
        if row.0 == word {
            return row.1;
        }
    }
    otherwise
}

/// The role of a keyword.
#[tactic(auto, unfolding(crate::specs::Roles::key_role, crate::specs::Roles::keys))]
fn key_role(word: &[u8]) -> Role
    ensures { result ≡ key_role word.now }
{
    role_by(&KEYS, word, Role::Operand)
}

/// The role of an operator or a punctuator.
#[tactic(auto, unfolding(crate::specs::Roles::punct_role, crate::specs::Roles::puncts))]
fn punct_role(word: &[u8]) -> Role
    ensures { result ≡ punct_role word.now }
{
    role_by(&PUNCTS, word, Role::Silent)
}

/// The role of a token.
pub fn role_of(token: &Token) -> Role
    ensures { result ≡ role_of (lexeme_of token.now) }
{
    match token.kind {
        TokKind::Key => key_role(&token.bytes),
        TokKind::Punct => punct_role(&token.bytes),
        TokKind::Name | TokKind::Int | TokKind::Char | TokKind::Str => Role::Operand,
    }
}
