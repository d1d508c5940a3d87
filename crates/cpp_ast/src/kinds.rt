//! The forms of the grammar.

ghost use Rattle.std.specs.Prelude.{◌≡◌};
ghost use Rattle.cpp_ast.specs.Shapes.{counts_one, has_token};

/// What a node is: one kind for each form of the grammar, in the words of C++14 annex A.
///
/// This is the table of kinds. After each form stand the kids of its nodes in their order and what their `token` is.
/// `?` marks a kid that may be missing, `*` any number of kids and `+` one or more; such kids are told from those
/// around them by their kinds. A type, a declarator, an expression or a statement stands for any kind of its group.
/// Brackets, commas and semicolons that are no token of a node follow from the form.
///
/// The position of a node is its first byte. That of a node which declares a name is the first byte of that name, without
/// what qualifies it; where it declares several, of the first one, and where it declares none, its own first byte.
/// Such nodes are aliases, classes, enums, enumerators, simple declarations, function definitions, constructors,
/// destructors (their name begins with `~`), member declarations, parameters, and the declarators of a list.
/// The position of a node without tokens is the first byte of the token behind it; behind the last token it is the byte
/// after that one, and 0 where there are no tokens.
#[derive(Clone, Copy, Debug, PartialEq, Eq)]
pub enum NodeKind {
    // Expressions.
    /// An integer. Token: it.
    IntegerLiteral,
    /// A character. Token: it.
    CharacterLiteral,
    /// A string. Token: it.
    StringLiteral,
    /// `true` or `false`. Token: it.
    BooleanLiteral,
    /// `nullptr`. Token: it.
    PointerLiteral,
    /// `this`. Token: it.
    This,
    /// `N`. Token: the name.
    UnqualifiedId,
    /// `T::N`. Kids: TypeName. Token: the name `N`.
    QualifiedId,
    /// `std::abort`. Token: `abort`.
    StdAbort,
    /// `(e)`. Kids: an expression. Token: `(`.
    ParenthesizedExpression,
    /// `base(e, ..)`. Kids: SimpleTypeSpecifier, TypeName or TxException; expressions*. Token: `(`.
    FunctionalCast,
    /// `static_cast<type>(e)`. Kids: TypeId, an expression. Token: `static_cast`.
    StaticCast,
    /// `[..](..) {..}`. Kids: LambdaIntroducer, LambdaDeclarator?. Token: `[`.
    /// Its body stands in the unit's `bodies`, and is its last kid in the tree of a whole unit: CompoundStatement?.
    Lambda,
    /// `a[i]`. Kids: two expressions. Token: `[`.
    Subscript,
    /// `f(e, ..)`. Kids: the called expression, the arguments*. Token: `(`.
    FunctionCall,
    /// `a.N`. Kids: an expression. Token: the name `N`.
    MemberAccess,
    /// `p->N`. Kids: an expression. Token: the name `N`.
    PointerMemberAccess,
    /// `e++` or `e--`. Kids: an expression. Token: the operator.
    PostfixIncrement,
    /// `++ -- + - ! ~ * &` before an operand. Kids: an expression. Token: the operator.
    UnaryExpression,
    /// `sizeof e`. Kids: an expression. Token: `sizeof`.
    SizeofExpression,
    /// `sizeof(type)`. Kids: TypeId. Token: `sizeof`.
    SizeofType,
    /// `(type)e`. Kids: TypeId, an expression. Token: `(`.
    CastExpression,
    /// Two operands and an operator of a level from `||` to `*`. Kids: left, right. Token: the operator.
    BinaryExpression,
    /// `c ? a : b`. Kids: three expressions. Token: `?`.
    ConditionalExpression,
    /// `a = b`, or with a compound assignment. Kids: left, right. Token: the operator.
    AssignmentExpression,
    /// `throw e` or `throw`. Kids: an expression?. Token: `throw`.
    ThrowExpression,
    /// `a, b`. Kids: left, right. Token: `,`.
    CommaExpression,

    // Lambdas.
    /// `[..]`. Kids: CaptureDefault?, then SimpleCapture, ReferenceCapture or ThisCapture*. Token: `[`.
    LambdaIntroducer,
    /// `=` or `&`. Token: it.
    CaptureDefault,
    /// `N`. Token: the name.
    SimpleCapture,
    /// `&N`. Token: the name.
    ReferenceCapture,
    /// `this`. Token: it.
    ThisCapture,
    /// What stands between the captures and the body, if anything does.
    /// Kids: ParameterDeclarationClause?, Mutable?, TxQualifier?, NoexceptSpecification?, TrailingReturnType?.
    LambdaDeclarator,
    /// `mutable`. Token: it.
    Mutable,
    /// `-> type`. Kids: TypeId. Token: `->`.
    TrailingReturnType,

    // Types.
    /// A type without its declarator. Kids: CvQualifier*, then SimpleTypeSpecifier+, TypeName or TxException, then
    /// CvQualifier*.
    TypeSpecifierSeq,
    /// `const` or `volatile`. Token: it.
    CvQualifier,
    /// One word of `void`, `bool`, `auto` or of an integer type. Token: it.
    SimpleTypeSpecifier,
    /// `T`. Token: the name.
    TypeName,
    /// `std::tx_exception<type>`. Kids: TypeId. Token: `tx_exception`.
    TxException,
    /// A type with a declarator that names nothing. Kids: TypeSpecifierSeq, a declarator that ends in OmittedId.
    TypeId,

    // Declarators.
    /// `* d`. Kids: CvQualifier*, a declarator. Token: `*`.
    PointerDeclarator,
    /// `& d`. Kids: a declarator. Token: `&`.
    ReferenceDeclarator,
    /// `d[e]` or `d[]`. Kids: a declarator, an expression?. Token: `[`.
    ArrayDeclarator,
    /// `d(..)`. Kids: a declarator, ParameterDeclarationClause, FunctionQualifiers. Token: `(`.
    FunctionDeclarator,
    /// `(d)`. Kids: a declarator. Token: `(`.
    ParenthesizedDeclarator,
    /// `N`; of a constructor `T`. Token: the name.
    DeclaratorId,
    /// `T::N`; of a constructor `T::T`. Kids: TypeName. Token: the last name.
    QualifiedDeclaratorId,
    /// `~T`. Token: the name `T`.
    DestructorId,
    /// `T::~T`. Kids: TypeName. Token: the last name.
    QualifiedDestructorId,
    /// The empty text where a declarator that names nothing would have its name.
    OmittedId,

    // Parameters.
    /// Parameters, none of them, or a lone `void`, which has no kids either. Kids: ParameterDeclaration*.
    ParameterDeclarationClause,
    /// A parameter or what a handler catches. Kids: TypeSpecifierSeq, a declarator, which may end in OmittedId.
    ParameterDeclaration,
    /// What follows parameters. Kids: CvQualifier? (`const`), TxQualifier?, NoexceptSpecification?.
    FunctionQualifiers,
    /// `transaction_safe` or `transaction_safe_dynamic`. Token: it.
    TxQualifier,
    /// `noexcept`. Token: it.
    NoexceptSpecification,

    // Initializers.
    /// A declarator with what initialises it.
    /// Kids: a declarator, EqualInitializer or ParenthesizedInitializer?. Token: the declared name.
    InitDeclarator,
    /// `= e` or `= {..}`. Kids: an expression or BracedInitList. Token: `=`.
    EqualInitializer,
    /// `(e, ..)`. Kids: expressions+. Token: `(`.
    ParenthesizedInitializer,
    /// `{..}`. Kids: expressions or BracedInitList*. Token: `{`.
    BracedInitList,

    // Declarations.
    /// `[[optimize_for_synchronized]]`. Token: the name.
    Attribute,
    /// `static`, `extern`, `inline`, `virtual` or `explicit`. Token: it.
    DeclSpecifier,
    /// `using N = type;`. Kids: TypeId. Token: the name.
    AliasDeclaration,
    /// `class N;` or `struct N;`. Kids: ClassKey. Token: the name.
    ClassDeclaration,
    /// `class N final : T {..};`. Kids: ClassKey, VirtSpecifier? (`final`), BaseSpecifier?, MemberSpecification.
    /// Token: the name.
    ClassSpecifier,
    /// `class` or `struct`. Token: it.
    ClassKey,
    /// A base. Kids: AccessSpecifier?. Token: the name of the base.
    BaseSpecifier,
    /// `public`, `protected` or `private` of a base. Token: it.
    AccessSpecifier,
    /// `{..}` of a class. Kids: members*. Token: `}`.
    MemberSpecification,
    /// `enum N {..};`. Kids: ClassKey? of a scoped one, EnumeratorDefinition*. Token: the name.
    EnumSpecifier,
    /// `N` or `N = e`. Kids: an expression?. Token: the name.
    EnumeratorDefinition,
    /// `extern "C"` before one declaration, which is then as one with `extern`.
    /// Kids: SimpleDeclaration or a definition of a function, constructor or destructor. Token: the string.
    LinkageSpecification,
    /// `extern "C" {..}`. Kids: what LinkageSpecification has, any number of them. Token: the string.
    LinkageBlock,
    /// `type d, ..;`. Kids: Attribute?, DeclSpecifier*, TypeSpecifierSeq, InitDeclarator+. Token: its first token.
    SimpleDeclaration,
    /// A function with its body, of a class or not.
    /// Kids: Attribute?, DeclSpecifier*, TypeSpecifierSeq, a declarator, VirtSpecifier*, CompoundStatement.
    /// Token: its first token.
    FunctionDefinition,
    /// A constructor without a body. Kids: Attribute?, DeclSpecifier*, FunctionDeclarator. Token: its first token.
    ConstructorDeclaration,
    /// A constructor with its body.
    /// Kids: Attribute?, DeclSpecifier*, FunctionDeclarator, BaseInitializer or MemberInitializer*, CompoundStatement.
    /// Token: its first token.
    ConstructorDefinition,
    /// A destructor without a body. Kids: DeclSpecifier*, FunctionDeclarator, VirtSpecifier*. Token: its first token.
    DestructorDeclaration,
    /// A destructor with its body.
    /// Kids: Attribute?, DeclSpecifier*, FunctionDeclarator, VirtSpecifier*, CompoundStatement. Token: its first token.
    DestructorDefinition,
    /// `;` alone. Token: it.
    EmptyDeclaration,

    // Members.
    /// `public:` and its kin. Token: the word.
    AccessLabel,
    /// `type d, ..;` of a class. Kids: Attribute?, DeclSpecifier*, TypeSpecifierSeq, MemberDeclarator+.
    /// Token: its first token.
    MemberDeclaration,
    /// One of its declarators.
    /// Kids: a declarator, VirtSpecifier*, PureSpecifier or EqualInitializer?. Token: the declared name.
    MemberDeclarator,
    /// `override` or `final`. Token: it.
    VirtSpecifier,
    /// `= 0` behind a lone declarator: of a function that it is pure, else its initialiser.
    /// Kids: IntegerLiteral. Token: `=`.
    PureSpecifier,
    /// `T(e, ..)` of a constructor. Kids: expressions*. Token: the name of the base or of the class.
    BaseInitializer,
    /// `N(e, ..)` of a constructor. Kids: expressions*. Token: the name of the member.
    MemberInitializer,

    // Statements.
    /// `{..}`. Kids: statements*. Token: `}`.
    CompoundStatement,
    /// `;` alone. Token: it.
    NullStatement,
    /// `e;`. Kids: an expression. Token: `;`.
    ExpressionStatement,
    /// `if`. Kids: an expression, a statement, the statement after `else`?. Token: `if`.
    IfStatement,
    /// `while`. Kids: an expression, a statement. Token: `while`.
    WhileStatement,
    /// `do`. Kids: a statement, an expression. Token: `do`.
    DoStatement,
    /// `for`. Kids: SimpleDeclaration, an expression or Absent; an expression or Absent; an expression or Absent;
    /// a statement. Token: `for`.
    ForStatement,
    /// `switch`. Kids: an expression, CompoundStatement. Token: `switch`.
    SwitchStatement,
    /// `case e:`. Kids: an expression, a statement. Token: `case`.
    CaseStatement,
    /// `default:`. Kids: a statement. Token: `default`.
    DefaultStatement,
    /// `break;`. Token: `break`.
    BreakStatement,
    /// `continue;`. Token: `continue`.
    ContinueStatement,
    /// `return e;` or `return;`. Kids: an expression?. Token: `return`.
    ReturnStatement,
    /// `try`. Kids: CompoundStatement, Handler+. Token: `try`.
    TryBlock,
    /// `catch`. Kids: ParameterDeclaration or Ellipsis, CompoundStatement. Token: `catch`.
    Handler,
    /// `...` of a handler. Token: it.
    Ellipsis,
    /// `synchronized`. Kids: CompoundStatement. Token: `synchronized`.
    SynchronizedStatement,
    /// `atomic_noexcept`, `atomic_cancel` or `atomic_commit`. Kids: CompoundStatement. Token: the word.
    AtomicStatement,
    /// A part of a `for` that is missing.
    Absent,
}

impl NodeKind {
    /// Whether a node of the kind is one deeper than the node that holds it. The others are as deep as that node.
    pub fn counts_one(self) -> bool
        ensures { result ≡ counts_one self }
    {
        match self {
            // Parts of a lambda.
            NodeKind::LambdaIntroducer
            | NodeKind::CaptureDefault
            | NodeKind::SimpleCapture
            | NodeKind::ReferenceCapture
            | NodeKind::ThisCapture
            | NodeKind::LambdaDeclarator
            | NodeKind::Mutable
            | NodeKind::TrailingReturnType => false,
            // Words and names of types.
            NodeKind::TypeSpecifierSeq
            | NodeKind::CvQualifier
            | NodeKind::SimpleTypeSpecifier
            | NodeKind::TypeName
            | NodeKind::TxException => false,
            // What stands round parameters, and where a name is left out.
            NodeKind::OmittedId
            | NodeKind::ParameterDeclarationClause
            | NodeKind::FunctionQualifiers
            | NodeKind::TxQualifier
            | NodeKind::NoexceptSpecification => false,
            // What joins a declarator and its initializer.
            NodeKind::InitDeclarator
            | NodeKind::EqualInitializer
            | NodeKind::ParenthesizedInitializer
            | NodeKind::MemberDeclarator
            | NodeKind::PureSpecifier
            | NodeKind::BaseInitializer
            | NodeKind::MemberInitializer => false,
            // Words of declarations.
            NodeKind::Attribute
            | NodeKind::DeclSpecifier
            | NodeKind::ClassKey
            | NodeKind::AccessSpecifier
            | NodeKind::VirtSpecifier => false,
            // What holds a base, members, or the declarations of another language.
            NodeKind::BaseSpecifier
            | NodeKind::MemberSpecification
            | NodeKind::LinkageSpecification
            | NodeKind::LinkageBlock => false,
            // Parts of statements.
            NodeKind::Handler | NodeKind::Ellipsis | NodeKind::Absent => false,
            _ => true,
        }
    }

    /// Whether each node of the kind has a token, which the table names. The others have none.
    pub fn has_token(self) -> bool
        ensures { result ≡ has_token self }
    {
        match self {
            NodeKind::LambdaDeclarator
            | NodeKind::TypeSpecifierSeq
            | NodeKind::TypeId
            | NodeKind::OmittedId
            | NodeKind::ParameterDeclarationClause
            | NodeKind::ParameterDeclaration
            | NodeKind::FunctionQualifiers
            | NodeKind::Absent => false,
            _ => true,
        }
    }
}
