//! Groups of terminals, as the lines of the grammar name them.

ghost use Rattle.std.specs.Prelude.{◌≡◌, true, false};
ghost use Rattle.cpp_syntax.specs.Terminals.{ReadsAs, stands_for, as_type_name, before_type_name, is_name, is_type_name, is_integer, is_boolean, is_type_word, is_cv, is_safety, is_virt, is_class_key, is_access, is_specifier, is_atomic, is_prefix, is_step, is_assignment, is_capture_default, is_unbracketed, is_unseparated, is_chosen, begins_operand, is_literal, level_of};

use crate::terminal::Terminal;

impl Terminal {
    /// Whether a token of this sort is read as a terminal, where a line of the grammar asks for it.
    pub fn is(self, terminal: Terminal) -> bool
        ensures yes { result ≡ true → ReadsAs self terminal }
        ensures no { result ≡ false → ReadsAs self terminal → ⊥ }
    {
        if self == terminal {
            return true;
        }
        self.stands_for(terminal)
    }

    /// Whether it may be read as another terminal: a word that is also the name of a type.
    fn stands_for(self, terminal: Terminal) -> bool
        ensures { result ≡ stands_for self terminal }
    {
        match self {
            Terminal::AbortType => matches!(terminal, Terminal::TypeName | Terminal::Abort),
            Terminal::AbortLater => matches!(terminal, Terminal::Abort),
            Terminal::TxExceptionType => matches!(
                terminal,
                Terminal::TypeName | Terminal::TxException
            ),
            Terminal::TxExceptionLater => matches!(terminal, Terminal::TxException),
            Terminal::OptimizeForSynchronizedType => matches!(
                terminal,
                Terminal::TypeName | Terminal::OptimizeForSynchronized
            ),
            Terminal::OptimizeForSynchronizedLater => matches!(
                terminal,
                Terminal::OptimizeForSynchronized
            ),
            Terminal::OverrideType => matches!(terminal, Terminal::TypeName | Terminal::Override),
            Terminal::OverrideLater => matches!(terminal, Terminal::Override),
            Terminal::FinalType => matches!(terminal, Terminal::TypeName | Terminal::Final),
            Terminal::FinalLater => matches!(terminal, Terminal::Final),
            Terminal::TransactionSafeType => matches!(
                terminal,
                Terminal::TypeName | Terminal::TransactionSafe
            ),
            Terminal::TransactionSafeLater => matches!(terminal, Terminal::TransactionSafe),
            Terminal::TransactionSafeDynamicType => matches!(
                terminal,
                Terminal::TypeName | Terminal::TransactionSafeDynamic
            ),
            Terminal::TransactionSafeDynamicLater => matches!(
                terminal,
                Terminal::TransactionSafeDynamic
            ),
            _ => false,
        }
    }

    /// What a name of this spelling is behind the index where it becomes the name of a type.
    pub fn as_type_name(self) -> Terminal
        ensures { result ≡ as_type_name self }
    {
        match self {
            Terminal::Abort => Terminal::AbortType,
            Terminal::TxException => Terminal::TxExceptionType,
            Terminal::OptimizeForSynchronized => Terminal::OptimizeForSynchronizedType,
            Terminal::Override => Terminal::OverrideType,
            Terminal::Final => Terminal::FinalType,
            Terminal::TransactionSafe => Terminal::TransactionSafeType,
            Terminal::TransactionSafeDynamic => Terminal::TransactionSafeDynamicType,
            _ => Terminal::TypeName,
        }
    }

    /// What it is before that index.
    pub fn before_type_name(self) -> Terminal
        ensures { result ≡ before_type_name self }
    {
        match self {
            Terminal::Abort => Terminal::AbortLater,
            Terminal::TxException => Terminal::TxExceptionLater,
            Terminal::OptimizeForSynchronized => Terminal::OptimizeForSynchronizedLater,
            Terminal::Override => Terminal::OverrideLater,
            Terminal::Final => Terminal::FinalLater,
            Terminal::TransactionSafe => Terminal::TransactionSafeLater,
            Terminal::TransactionSafeDynamic => Terminal::TransactionSafeDynamicLater,
            _ => Terminal::Other,
        }
    }

    /// Whether it is the name of a type that is declared before.
    pub fn is_type_name(self) -> bool
        ensures { result ≡ is_type_name self }
    {
        matches!(
            self,
            Terminal::TypeName
                | Terminal::AbortType
                | Terminal::TxExceptionType
                | Terminal::OptimizeForSynchronizedType
                | Terminal::OverrideType
                | Terminal::FinalType
                | Terminal::TransactionSafeType
                | Terminal::TransactionSafeDynamicType
        )
    }

    /// Whether it is a name that names anything but a type.
    pub fn is_name(self) -> bool
        ensures { result ≡ is_name self }
    {
        matches!(
            self,
            Terminal::Name
                | Terminal::Abort
                | Terminal::TxException
                | Terminal::OptimizeForSynchronized
                | Terminal::Override
                | Terminal::Final
                | Terminal::TransactionSafe
                | Terminal::TransactionSafeDynamic
        )
    }

    /// Whether it is an integer.
    pub fn is_integer(self) -> bool
        ensures { result ≡ is_integer self }
    {
        matches!(self, Terminal::Zero | Terminal::Integer)
    }

    /// Whether it is `true` or `false`.
    pub fn is_boolean(self) -> bool
        ensures { result ≡ is_boolean self }
    {
        matches!(self, Terminal::True | Terminal::False)
    }

    /// Whether it is a word of an integer type, `void`, `bool` or `auto`.
    pub fn is_type_word(self) -> bool
        ensures { result ≡ is_type_word self }
    {
        matches!(
            self,
            Terminal::Void
                | Terminal::Bool
                | Terminal::Auto
                | Terminal::Char
                | Terminal::Short
                | Terminal::Int
                | Terminal::Long
                | Terminal::Signed
                | Terminal::Unsigned
        )
    }

    /// Whether it is `const` or `volatile`.
    pub fn is_cv(self) -> bool
        ensures { result ≡ is_cv self }
    {
        matches!(self, Terminal::Const | Terminal::Volatile)
    }

    /// Whether it is `transaction_safe` or `transaction_safe_dynamic`.
    pub fn is_safety(self) -> bool
        ensures { result ≡ is_safety self }
    {
        matches!(
            self,
            Terminal::TransactionSafe
                | Terminal::TransactionSafeType
                | Terminal::TransactionSafeLater
                | Terminal::TransactionSafeDynamic
                | Terminal::TransactionSafeDynamicType
                | Terminal::TransactionSafeDynamicLater
        )
    }

    /// Whether it is `override` or `final`.
    pub fn is_virt(self) -> bool
        ensures { result ≡ is_virt self }
    {
        matches!(
            self,
            Terminal::Override
                | Terminal::OverrideType
                | Terminal::OverrideLater
                | Terminal::Final
                | Terminal::FinalType
                | Terminal::FinalLater
        )
    }

    /// Whether it is `class` or `struct`.
    pub fn is_class_key(self) -> bool
        ensures { result ≡ is_class_key self }
    {
        matches!(self, Terminal::Class | Terminal::Struct)
    }

    /// Whether it is `public`, `protected` or `private`.
    pub fn is_access(self) -> bool
        ensures { result ≡ is_access self }
    {
        matches!(
            self,
            Terminal::Public | Terminal::Protected | Terminal::Private
        )
    }

    /// Whether it is `static`, `extern` or `inline`.
    pub fn is_specifier(self) -> bool
        ensures { result ≡ is_specifier self }
    {
        matches!(self, Terminal::Static | Terminal::Extern | Terminal::Inline)
    }

    /// Whether it begins an atomic block.
    pub fn is_atomic(self) -> bool
        ensures { result ≡ is_atomic self }
    {
        matches!(
            self,
            Terminal::AtomicNoexcept | Terminal::AtomicCancel | Terminal::AtomicCommit
        )
    }

    /// Whether it is an operator that stands before an operand.
    pub fn is_prefix(self) -> bool
        ensures { result ≡ is_prefix self }
    {
        matches!(
            self,
            Terminal::PlusPlus
                | Terminal::MinusMinus
                | Terminal::Plus
                | Terminal::Minus
                | Terminal::Bang
                | Terminal::Tilde
                | Terminal::Star
                | Terminal::Amp
        )
    }

    /// Whether it is `++` or `--`.
    pub fn is_step(self) -> bool
        ensures { result ≡ is_step self }
    {
        matches!(self, Terminal::PlusPlus | Terminal::MinusMinus)
    }

    /// Whether it is `=` or a compound assignment.
    pub fn is_assignment(self) -> bool
        ensures { result ≡ is_assignment self }
    {
        matches!(
            self,
            Terminal::Equal
                | Terminal::PlusEqual
                | Terminal::MinusEqual
                | Terminal::StarEqual
                | Terminal::SlashEqual
                | Terminal::PercentEqual
                | Terminal::CaretEqual
                | Terminal::AmpEqual
                | Terminal::BarEqual
                | Terminal::ShiftLeftEqual
                | Terminal::ShiftRightEqual
        )
    }

    /// Whether it captures by default, as `=` and `&` do.
    pub fn is_capture_default(self) -> bool
        ensures { result ≡ is_capture_default self }
    {
        matches!(self, Terminal::Equal | Terminal::Amp)
    }

    /// Whether it is a token and no bracket.
    pub fn is_unbracketed(self) -> bool
        ensures { result ≡ is_unbracketed self }
    {
        !matches!(
            self,
            Terminal::OpenParen
                | Terminal::CloseParen
                | Terminal::OpenBracket
                | Terminal::CloseBracket
                | Terminal::OpenBrace
                | Terminal::CloseBrace
                | Terminal::End
        )
    }

    /// Whether it is a token and no bracket, comma, semicolon or `?`.
    pub fn is_unseparated(self) -> bool
        ensures { result ≡ is_unseparated self }
    {
        !matches!(
            self,
            Terminal::Comma | Terminal::Semicolon | Terminal::Question
        ) && self.is_unbracketed()
    }

    /// Whether it is a token and no bracket, semicolon, `?` or `:`.
    pub fn is_chosen(self) -> bool
        ensures { result ≡ is_chosen self }
    {
        !matches!(
            self,
            Terminal::Semicolon | Terminal::Question | Terminal::Colon
        ) && self.is_unbracketed()
    }

    /// Whether it begins the operand of a cast, whatever follows.
    pub fn begins_operand(self) -> bool
        ensures { result ≡ begins_operand self }
    {
        if matches!(
            self,
            Terminal::Plus
                | Terminal::Minus
                | Terminal::Bang
                | Terminal::Tilde
                | Terminal::Star
                | Terminal::Amp
        ) {
            return true;
        }
        if matches!(
            self,
            Terminal::This
                | Terminal::Std
                | Terminal::StaticCast
                | Terminal::Sizeof
                | Terminal::OpenBracket
        ) {
            return true;
        }
        if matches!(
            self,
            Terminal::Zero
                | Terminal::Integer
                | Terminal::Character
                | Terminal::String
                | Terminal::True
                | Terminal::False
                | Terminal::Nullptr
        ) {
            return true;
        }
        self.is_name()
            || self.is_type_name()
            || (!matches!(self, Terminal::Auto) && self.is_type_word())
    }

    /// Whether it is a literal, or `this`.
    pub fn is_literal(self) -> bool
        ensures { result ≡ is_literal self }
    {
        matches!(
            self,
            Terminal::Zero
                | Terminal::Integer
                | Terminal::Character
                | Terminal::String
                | Terminal::True
                | Terminal::False
                | Terminal::Nullptr
                | Terminal::This
        )
    }

    /// How loosely it binds as an operator between two operands, from 1 for `*` to 10 for `||`; 0 where it is none.
    pub fn level(self) -> u32
        ensures { result ≡ level_of self }
    {
        match self {
            Terminal::Star | Terminal::Slash | Terminal::Percent => 1,
            Terminal::Plus | Terminal::Minus => 2,
            Terminal::ShiftLeft | Terminal::ShiftRight => 3,
            Terminal::Less | Terminal::Greater | Terminal::LessEqual | Terminal::GreaterEqual => 4,
            Terminal::EqualEqual | Terminal::NotEqual => 5,
            Terminal::Amp => 6,
            Terminal::Caret => 7,
            Terminal::Bar => 8,
            Terminal::AmpAmp => 9,
            Terminal::BarBar => 10,
            _ => 0,
        }
    }
}
