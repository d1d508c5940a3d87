//! The names of rules, reasons and limits, as refusals have them.

ghost use Rattle.std.specs.Prelude.{◌≡◌};
ghost use Rattle.source_verdict.specs.Names.{ill_name, override_name, reason_name, limit_name};

use cpp_tree::{IllRule, LimitKind, OverrideRule, UnsafeReason};

/// The name of a rule of the language.
pub fn ill_name(rule: IllRule) -> &'static str
    ensures { result.now ≡ ill_name rule }
{
    match rule {
        IllRule::UnknownName => "UnknownName",
        IllRule::Redeclared => "Redeclared",
        IllRule::TypeDiffers => "TypeDiffers",
        IllRule::SafetyDiffers => "SafetyDiffers",
        IllRule::BadDeclaration => "BadDeclaration",
        IllRule::NotConstant => "NotConstant",
        IllRule::NoConversion => "NoConversion",
        IllRule::NoViable => "NoViable",
        IllRule::Ambiguous => "Ambiguous",
        IllRule::NotLvalue => "NotLvalue",
        IllRule::ConstTarget => "ConstTarget",
        IllRule::BadOperand => "BadOperand",
        IllRule::Incomplete => "Incomplete",
        IllRule::AbstractObject => "AbstractObject",
        IllRule::NoDefault => "NoDefault",
        IllRule::NoCopy => "NoCopy",
        IllRule::BadInit => "BadInit",
        IllRule::Narrowing => "Narrowing",
        IllRule::NoMember => "NoMember",
        IllRule::NotCallable => "NotCallable",
        IllRule::BadReturn => "BadReturn",
        IllRule::BadBreak => "BadBreak",
        IllRule::BadThrow => "BadThrow",
        IllRule::BadCatch => "BadCatch",
        IllRule::NotTriviallyCopyable => "NotTriviallyCopyable",
        IllRule::Capture => "Capture",
        IllRule::BadCase => "BadCase",
        IllRule::JumpPastInit => "JumpPastInit",
        IllRule::BadMain => "BadMain",
        IllRule::OutOfProfile => "OutOfProfile",
    }
}

/// The name of a rule on overriding functions.
pub fn override_name(rule: OverrideRule) -> &'static str
    ensures { result.now ≡ override_name rule }
{
    match rule {
        OverrideRule::OverrideNothing => "OverrideNothing",
        OverrideRule::OverridesFinal => "OverridesFinal",
        OverrideRule::BaseFinal => "BaseFinal",
        OverrideRule::ReturnDiffers => "ReturnDiffers",
        OverrideRule::LooserNoexcept => "LooserNoexcept",
        OverrideRule::DynamicOverSafe => "DynamicOverSafe",
        OverrideRule::DynamicNotVirtual => "DynamicNotVirtual",
    }
}

/// The name of a reason why a part is unsafe.
pub fn reason_name(rule: UnsafeReason) -> &'static str
    ensures { result.now ≡ reason_name rule }
{
    match rule {
        UnsafeReason::VolatileRead => "VolatileRead",
        UnsafeReason::VolatileWrite => "VolatileWrite",
        UnsafeReason::VolatileTemp => "VolatileTemp",
        UnsafeReason::VolatileLocal => "VolatileLocal",
        UnsafeReason::VolatileParam => "VolatileParam",
        UnsafeReason::CallsUnsafe => "CallsUnsafe",
        UnsafeReason::CallsUnsafePointer => "CallsUnsafePointer",
    }
}

/// The name of a limit.
pub fn limit_name(rule: LimitKind) -> &'static str
    ensures { result.now ≡ limit_name rule }
{
    match rule {
        LimitKind::Size => "Size",
        LimitKind::Frame => "Frame",
        LimitKind::Params => "Params",
        LimitKind::Exception => "Exception",
    }
}
