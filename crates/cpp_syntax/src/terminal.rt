//! What a token is to the grammar.

/// What a token is to the grammar: a keyword, an operator or punctuator, a kind of literal, or a name by what it may
/// stand for at its index.
///
/// Keywords, operators and punctuators that no form uses are `Other`: where one stands, no text goes on.
#[derive(Clone, Copy, Debug, PartialEq, Eq)]
pub enum Terminal {
    // Names.
    /// A name that may declare or name anything but a type.
    Name,
    /// A name that is a type name at its index.
    TypeName,
    /// `std` before `::`.
    Std,
    /// `abort`, a name as any other but behind `std::`.
    Abort,
    /// `tx_exception`, a name as any other but behind `std::`.
    TxException,
    /// `optimize_for_synchronized`, a name as any other but as an attribute.
    OptimizeForSynchronized,
    /// `override`, a name as any other but behind a member's declarator.
    Override,
    /// `final`, a name as any other but behind a member's declarator or a class's name.
    Final,
    /// `transaction_safe`, a name as any other but behind parameters or captures.
    TransactionSafe,
    /// `transaction_safe_dynamic`, as `transaction_safe`.
    TransactionSafeDynamic,

    // These seven words where a type has their name: each is read as the word where the grammar has it, else as the name
    // of a type.
    /// `abort`, the name of a type that is declared before.
    AbortType,
    /// `tx_exception`, the name of a type that is declared before.
    TxExceptionType,
    /// `optimize_for_synchronized`, the name of a type that is declared before.
    OptimizeForSynchronizedType,
    /// `override`, the name of a type that is declared before.
    OverrideType,
    /// `final`, the name of a type that is declared before.
    FinalType,
    /// `transaction_safe`, the name of a type that is declared before.
    TransactionSafeType,
    /// `transaction_safe_dynamic`, the name of a type that is declared before.
    TransactionSafeDynamicType,

    // The same where the type is declared further on: each is read as the word where the grammar has it, else as nothing.
    /// `abort`, the name of a type that is declared further on.
    AbortLater,
    /// `tx_exception`, the name of a type that is declared further on.
    TxExceptionLater,
    /// `optimize_for_synchronized`, the name of a type that is declared further on.
    OptimizeForSynchronizedLater,
    /// `override`, the name of a type that is declared further on.
    OverrideLater,
    /// `final`, the name of a type that is declared further on.
    FinalLater,
    /// `transaction_safe`, the name of a type that is declared further on.
    TransactionSafeLater,
    /// `transaction_safe_dynamic`, the name of a type that is declared further on.
    TransactionSafeDynamicLater,

    // Literals.
    /// The integer spelled `0`.
    Zero,
    /// Any other integer.
    Integer,
    Character,
    String,
    True,
    False,
    Nullptr,

    // Words of types.
    Void,
    Bool,
    Auto,
    Char,
    Short,
    Int,
    Long,
    Signed,
    Unsigned,
    Const,
    Volatile,

    // Words of expressions.
    This,
    Sizeof,
    StaticCast,
    Throw,
    Mutable,
    Noexcept,

    // Words of declarations.
    Using,
    Class,
    Struct,
    Enum,
    Static,
    Extern,
    Inline,
    Virtual,
    Explicit,
    Public,
    Protected,
    Private,

    // Words of statements.
    If,
    Else,
    While,
    Do,
    For,
    Switch,
    Case,
    Default,
    Break,
    Continue,
    Return,
    Try,
    Catch,
    Synchronized,
    AtomicNoexcept,
    AtomicCancel,
    AtomicCommit,

    // Brackets and punctuators.
    OpenParen,
    CloseParen,
    OpenBracket,
    CloseBracket,
    OpenBrace,
    CloseBrace,
    Semicolon,
    Comma,
    Colon,
    ColonColon,
    Question,
    Dot,
    Arrow,
    Ellipsis,

    // Operators.
    Plus,
    Minus,
    Star,
    Slash,
    Percent,
    Caret,
    Amp,
    Bar,
    Tilde,
    Bang,
    Less,
    Greater,
    ShiftLeft,
    ShiftRight,
    EqualEqual,
    NotEqual,
    LessEqual,
    GreaterEqual,
    AmpAmp,
    BarBar,
    PlusPlus,
    MinusMinus,
    Equal,
    PlusEqual,
    MinusEqual,
    StarEqual,
    SlashEqual,
    PercentEqual,
    CaretEqual,
    AmpEqual,
    BarEqual,
    ShiftLeftEqual,
    ShiftRightEqual,

    /// A token that no form uses at its index.
    Other,
    /// Behind the last token.
    End,
}
