//! Laws of the definitions that the contracts of this crate cite. Each function does nothing; its contract is the law.

ghost use Rattle.tx_ints.specs.Laws.{ConvertsIntoRange, ConvertKeeps, ConvertTwice, ConvertsModulo, ConvertOnly, ConvertSame, WordBelow, WordBack, WordThere, WordConverts, PromoteTwice, UsualPromoted, UsualTurned, AppliesIntoRange, UnsignedTraps, SignedKeeps, AndBits, XorBits, OrBits};

/// A conversion gives the one number of the kind that is equal to its operand modulo 2^n.
pub fn conversion_laws()
    ensures range { ConvertsIntoRange }
    ensures keeps { ConvertKeeps }
    ensures twice { ConvertTwice }
    ensures modulo { ConvertsModulo }
    ensures only { ConvertOnly }
    ensures same { ConvertSame }
{}

/// The numbers of a kind and words of 64 bits stand for one another.
pub fn word_laws()
    ensures below { WordBelow }
    ensures back { WordBack }
    ensures there { WordThere }
    ensures converts { WordConverts }
{}

/// Promotion is done once, and the common kind of two operands is promoted and does not depend on their order.
pub fn promotion_laws()
    ensures twice { PromoteTwice }
    ensures promoted { UsualPromoted }
    ensures turned { UsualTurned }
{}

/// Operators stay in their kind, an unsigned kind does not overflow, a signed one keeps its values, and the bit operators
/// work bit by bit.
pub fn operator_laws()
    ensures range { AppliesIntoRange }
    ensures unsigned { UnsignedTraps }
    ensures signed { SignedKeeps }
    ensures and { AndBits }
    ensures xor { XorBits }
    ensures or { OrBits }
{}
