//! Bodies and images worked out by hand, which the definitions have to lead to. A function here does nothing.
ghost use Rattle.std.specs.Prelude.{◌≡◌, codes, map, [], ◌∷◌};
ghost use Rattle.tx_code.specs.Signatures.{takes_of, gives_of};

/// How many words functions take, by the spellings of their types.
pub fn words_taken()
    ensures none { map takes_of (codes "int()" ∷ codes "void(*)(int)" ∷ codes "S" ∷ codes "(int)" ∷ []) ≡ 0 ∷ 0 ∷ 0 ∷ 0 ∷ [] }
    ensures some { map takes_of (codes "void(this,int,char*)" ∷ codes "int(void(*)(int,int),long)" ∷ codes "S*(int)" ∷ codes "enum E(int)" ∷ []) ≡ 3 ∷ 2 ∷ 1 ∷ 1 ∷ [] }
    ensures class { map takes_of (codes "S(int)" ∷ codes "std::tx_exception<int>()" ∷ codes "lambda:0:17(int)" ∷ codes "const S(this)" ∷ []) ≡ 2 ∷ 1 ∷ 2 ∷ 2 ∷ [] }
    ensures function { map takes_of (codes "void(*)(int)(long,long)" ∷ codes "int(int) transaction_safe" ∷ []) ≡ 2 ∷ 1 ∷ [] }
{}

/// How many words they hand back.
pub fn words_returned()
    ensures none { map gives_of (codes "void(long)" ∷ codes "S(int)" ∷ codes "const S(int)" ∷ codes "int(*)(int)" ∷ codes "S" ∷ []) ≡ 0 ∷ 0 ∷ 0 ∷ 0 ∷ 0 ∷ [] }
    ensures one { map gives_of (codes "int()" ∷ codes "S*(int)" ∷ codes "S&()" ∷ codes "enum E()" ∷ codes "void(*)(int)(long)" ∷ codes "unsigned int()" ∷ []) ≡ 1 ∷ 1 ∷ 1 ∷ 1 ∷ 1 ∷ 1 ∷ [] }
{}
