//! Laws of the text of objects. A function here does nothing: its clause is the law.
ghost use Rattle.std.specs.Prelude.{◌≡◌, List, [], ℕ};
ghost use Rattle.tx_code.specs.Objects.{ObjectView};
ghost use Rattle.code_asm.specs.Steps.{Ended};
ghost use Rattle.code_asm.specs.Answers.{Reaches, IsFirstWrong, IsWritten, LeadsTo};

pub use assembly_text::laws::one_line;

/// A text leads to the end of one object, or it has one first wrong line, and never both.
pub fn one_outcome()
    ensures object { (text : List ℕ) (m n : ℕ) (o p : ObjectView) → Reaches text m (record { object = o; place = Ended }) [] → Reaches text n (record { object = p; place = Ended }) [] → o ≡ p }
    ensures line { (text : List ℕ) (m n : ℕ) → IsFirstWrong text m → IsFirstWrong text n → m ≡ n }
    ensures apart { (text : List ℕ) (m n : ℕ) (o : ObjectView) → Reaches text m (record { object = o; place = Ended }) [] → IsFirstWrong text n → ⊥ }
{}

/// A text that writes an object that some bytes spell leads to the end of that object. So it writes no other one, and no line of it
/// is wrong.
pub fn written_texts()
    ensures leads { (o : ObjectView) (text : List ℕ) → IsWritten o text → LeadsTo text o }
    ensures object { (o p : ObjectView) (text : List ℕ) → IsWritten o text → IsWritten p text → o ≡ p }
    ensures apart { (o : ObjectView) (text : List ℕ) (line : ℕ) → IsWritten o text → IsFirstWrong text line → ⊥ }
{}
