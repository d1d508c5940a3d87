//! Operators, conversions and jumps.

ghost use Rattle.std.specs.Prelude.{ℕ, ◌≡◌, ◌+◌, ◌==◌, ◌&&◌, option_map, List, IfOk};
ghost use Rattle.cpp_tree.specs.cpp_types.Typ.{Typ};
ghost use Rattle.cpp_tree.specs.declared.program.Program.{Program};
ghost use Rattle.cpp_tree.specs.tx_ints.declared.kinds.BinOp.TheVariants.{Add, Sub, Mul, Eq};
ghost use Rattle.cpp_tree.specs.tx_ints.declared.kinds.IntKind.TheVariants.{ULong};
ghost use Rattle.src_mean.specs.Linked.{Func};
ghost use Rattle.cpp_tree.specs.tx_ints.declared.kinds.BinOp.{BinOp as BinOpOf};
ghost use Rattle.cpp_tree.specs.tx_ints.declared.kinds.IntKind.{IntKind as IntKindOf};
ghost use Rattle.symbolic_source.specs.Terms.{Term as SourceTerm, converted_to, result as result_of};
ghost use Rattle.symbolic_source.specs.Outcomes.{Outcome as SourceNext, results};
ghost use Rattle.symbolic_code.specs.Facts.{Fact as KnownFact};
ghost use Rattle.symbolic_code.specs.Same.{same_term as is_same, same_number as is_same_kind, same_operator as is_same_operator};
ghost use Rattle.symbolic_code.specs.Following.{unless_trap, one_of, two_of, if_found, pushes as pushes_word, minus_number as number_less, less_one as one_less_of, or_less_one as or_one_less_of, times as times_number, addresses as address_of, operates as operates_with, jumps_zero as jumps_at};
ghost use Rattle.symbolic_terms.specs.Words.{term_of};
ghost use Rattle.symbolic_terms.specs.Meanings.{Meaning, Agrees, word_of, words_of};
ghost use Rattle.symbolic_terms.specs.Shown.{facts_of, outcome_of, place_of};
ghost use Rattle.code_follows.specs.Shown.{next_of};
ghost use Rattle.code_follows.specs.Jumps.{decided};

use crate::next::{Course, Next};
use crate::operands::{goes_by, pushes, pushes_by};
use bumpalo::Bump;
use cpp_tree::below::{BinOp, IntKind};
use symbolic_frames::known::is_not_zero;
use symbolic_terms::arena::keep;
use symbolic_terms::comparison::same_word;
use symbolic_terms::ids::{Terms, WordId};
use symbolic_terms::made::{applied, converted};
use symbolic_terms::outcomes::Outcome;
use symbolic_terms::places::{Facts, Place};
use symbolic_terms::refusal::Refusal;
use symbolic_terms::sums::{at_offset, one_less, plus_number, product, sum};
use symbolic_terms::terms::Term;
use symbolic_terms::words::{Words, made, term};

// A number less, where it is seen that none is borrowed; where nothing is left in a sum, what it is added to.
fn minus_number<'a>(
    arena: &'a Bump,
    term: Term<'a>,
    number: u64,
) -> Result<Option<Term<'a>>, Refusal>
    ensures { IfOk result (λ t. (types : ℕ → Typ) → option_map (term_of types) t ≡ number_less (term_of types term.entry) number) }
{
    match term {
        Term::Number(own) => {
            if number <= own {
                Ok(Some(Term::Number(own - number)))
            } else {
                Ok(None)
            }
        }
        Term::Local(own) => {
            if number <= own {
                Ok(Some(Term::Local(own - number)))
            } else {
                Ok(None)
            }
        }
        Term::Sum(of, Term::Number(own)) => {
            if number <= *own {
                Ok(Some(at_offset(arena, *of, *own - number)?))
            } else {
                Ok(None)
            }
        }
        _ => Ok(None),
    }
}

// One less of what is not 0.
fn less_one<'a>(
    arena: &'a Bump,
    words: &Words<'a>,
    facts: Facts<'a>,
    word: WordId,
    number: u64,
) -> Result<Option<Term<'a>>, Refusal>
    ensures { IfOk result (λ t. (types : ℕ → Typ) (m : Meaning) → Agrees types m words.now → option_map (term_of types) t ≡ one_less_of (facts_of types m facts.entry) (word_of m word) number) }
{
    if number == 1 && is_not_zero(words, &facts, word)? {
        Ok(Some(one_less(arena, term(words, word)?)?))
    } else {
        Ok(None)
    }
}

// A number less of an address.
fn less<'a>(
    arena: &'a Bump,
    words: &Words<'a>,
    facts: Facts<'a>,
    word: WordId,
    number: u64,
) -> Result<Option<Term<'a>>, Refusal>
    ensures { IfOk result (λ t. (types : ℕ → Typ) (m : Meaning) → Agrees types m words.now → option_map (term_of types) t ≡ or_one_less_of (facts_of types m facts.entry) (word_of m word) number (number_less (word_of m word) number)) }
{
    let whole = term(words, word)?;
    match minus_number(arena, whole, number)? {
        Some(term) => Ok(Some(term)),
        None => less_one(arena, words, facts, word, number),
    }
}

// A number times a word.
fn times<'a>(arena: &'a Bump, number: u64, word: Term<'a>) -> Result<Term<'a>, Refusal>
    ensures { IfOk result (λ t. (types : ℕ → Typ) → term_of types t ≡ times_number (number == 0) number (term_of types word.entry)) }
{
    if number == 0 {
        Ok(Term::Number(0))
    } else {
        product(arena, Term::Number(number), word)
    }
}

// A sum of addresses.
fn added<'a>(
    arena: &'a Bump,
    words: &Words<'a>,
    left: WordId,
    right: WordId,
) -> Result<Option<Term<'a>>, Refusal>
    ensures { IfOk result (λ t. (types : ℕ → Typ) (m : Meaning) (ks : List KnownFact) → Agrees types m words.now → option_map (term_of types) t ≡ address_of ks Add ULong (word_of m left) (word_of m right)) }
{
    let left = term(words, left)?;
    match term(words, right)? {
        Term::Number(number) => Ok(Some(plus_number(arena, left, number)?)),
        other => Ok(Some(sum(arena, left, other)?)),
    }
}

// A difference of addresses, where no word below 0 is seen.
fn subtracted<'a>(
    arena: &'a Bump,
    words: &Words<'a>,
    facts: Facts<'a>,
    left: WordId,
    right: WordId,
) -> Result<Option<Term<'a>>, Refusal>
    ensures { IfOk result (λ t. (types : ℕ → Typ) (m : Meaning) → Agrees types m words.now → option_map (term_of types) t ≡ address_of (facts_of types m facts.entry) Sub ULong (word_of m left) (word_of m right)) }
{
    match term(words, right)? {
        Term::Number(number) => less(arena, words, facts, left, number),
        _ => Ok(None),
    }
}

// A product of addresses.
fn multiplied<'a>(
    arena: &'a Bump,
    words: &Words<'a>,
    left: WordId,
    right: WordId,
) -> Result<Option<Term<'a>>, Refusal>
    ensures { IfOk result (λ t. (types : ℕ → Typ) (m : Meaning) (ks : List KnownFact) → Agrees types m words.now → option_map (term_of types) t ≡ address_of ks Mul ULong (word_of m left) (word_of m right)) }
{
    let right = term(words, right)?;
    match term(words, left)? {
        Term::Number(number) => Ok(Some(times(arena, number, right)?)),
        other => Ok(Some(product(arena, other, right)?)),
    }
}

// The test of a label.
fn compared<'a>(
    arena: &'a Bump,
    words: &Words<'a>,
    left: WordId,
    right: WordId,
) -> Result<Option<Term<'a>>, Refusal>
    ensures { IfOk result (λ t. (types : ℕ → Typ) (m : Meaning) (ks : List KnownFact) → Agrees types m words.now → option_map (term_of types) t ≡ address_of ks Eq ULong (word_of m left) (word_of m right)) }
{
    Ok(Some(Term::Applied {
        op: BinOp::Eq,
        kind: IntKind::ULong,
        left: keep(arena, term(words, left)?)?,
        right: keep(arena, term(words, right)?)?,
    }))
}

// What an operator on addresses gives that does not trap.
fn addresses<'a>(
    arena: &'a Bump,
    words: &Words<'a>,
    facts: Facts<'a>,
    op: BinOp,
    kind: IntKind,
    left: WordId,
    right: WordId,
) -> Result<Option<Term<'a>>, Refusal>
    ensures { IfOk result (λ t. (types : ℕ → Typ) (m : Meaning) → Agrees types m words.now → option_map (term_of types) t ≡ address_of (facts_of types m facts.entry) op kind (word_of m left) (word_of m right)) }
{
    match (op, kind) {
        (BinOp::Add, IntKind::ULong) => added(arena, words, left, right),
        (BinOp::Sub, IntKind::ULong) => subtracted(arena, words, facts, left, right),
        (BinOp::Mul, IntKind::ULong) => multiplied(arena, words, left, right),
        (BinOp::Eq, IntKind::ULong) => compared(arena, words, left, right),
        _ => Ok(None),
    }
}

// A silent step that puts this term on operands.
fn pushes_term<'a>(
    arena: &'a Bump,
    words: &mut Words<'a>,
    index: u32,
    place: Place<'a>,
    term: Term<'a>,
    below: Terms<'a>,
) -> Result<Next<'a>, Refusal>
    ensures is { IfOk result (λ n. (types : ℕ → Typ) (m : Meaning) (o : SourceNext) → Agrees types m words.new → next_of types m n o ≡ pushes_word index (place_of types m place.entry) o (term_of types term.entry) (words_of m below.entry)) }
    ensures grows { (types : ℕ → Typ) (m : Meaning) → Agrees types m words.new → Agrees types m words.old }
{
    let word = made(words, term)?;
    pushes(arena, index, place, word, below)
}

// An operator on addresses that does not trap, of which the source does nothing at this step.
fn gives<'a>(
    arena: &'a Bump,
    words: &mut Words<'a>,
    facts: Facts<'a>,
    index: u32,
    place: Place<'a>,
    op: BinOp,
    kind: IntKind,
    left: WordId,
    right: WordId,
    below: Terms<'a>,
) -> Result<Next<'a>, Refusal>
    ensures is { IfOk result (λ n. (types : ℕ → Typ) (m : Meaning) (o : SourceNext) → Agrees types m words.new → next_of types m n o ≡ if_found (address_of (facts_of types m facts.entry) op kind (word_of m left) (word_of m right)) (λ w. pushes_word index (place_of types m place.entry) o w (words_of m below.entry))) }
    ensures grows { (types : ℕ → Typ) (m : Meaning) → Agrees types m words.new → Agrees types m words.old }
{
    match addresses(arena, words, facts, op, kind, left, right)? {
        Some(term) => pushes_term(arena, words, index, place, term, below),
        None => Ok(Next::Refused),
    }
}

// Whether an operation is the one that the source does.
fn operates_same(
    words: &Words<'_>,
    op: BinOp,
    kind: IntKind,
    left: WordId,
    right: WordId,
    other_op: BinOp,
    other_kind: IntKind,
    other_left: WordId,
    other_right: WordId,
) -> Result<bool, Refusal>
    ensures { IfOk result (λ b. (types : ℕ → Typ) (m : Meaning) → Agrees types m words.now → b ≡ (is_same_operator op other_op && is_same_kind kind other_kind && (is_same (word_of m left) (word_of m other_left) && is_same (word_of m right) (word_of m other_right)))) }
{
    let same_left = same_word(words, left, other_left)?;
    let same_right = same_word(words, right, other_right)?;
    Ok(op == other_op && kind == other_kind && same_left && same_right)
}

// An operator that the source applies too, and that may trap.
fn may_trap<'a>(
    arena: &'a Bump,
    words: &mut Words<'a>,
    index: u32,
    place: Place<'a>,
    op: BinOp,
    kind: IntKind,
    left: WordId,
    right: WordId,
    below: Terms<'a>,
) -> Result<Next<'a>, Refusal>
    ensures is { IfOk result (λ n. (types : ℕ → Typ) (m : Meaning) (oq : BinOpOf) (j : IntKindOf) (a b : SourceTerm) (o : SourceNext) → Agrees types m words.new → next_of types m n (results oq j a b o) ≡ unless_trap op kind (word_of m left) (word_of m right) (pushes_word index (place_of types m place.entry) o (result_of op kind (word_of m left) (word_of m right)) (words_of m below.entry))) }
    ensures grows { (types : ℕ → Typ) (m : Meaning) → Agrees types m words.new → Agrees types m words.old }
{
    let word = applied(arena, words, op, kind, left, right)?;
    let course = Course::UnlessTrap {
        op,
        kind,
        left,
        right,
    };
    pushes_by(arena, course, index, place, word, below)
}

// An operator on these words.
fn operates_on<'a>(
    arena: &'a Bump,
    words: &mut Words<'a>,
    facts: Facts<'a>,
    index: u32,
    place: Place<'a>,
    op: BinOp,
    kind: IntKind,
    left: WordId,
    right: WordId,
    below: Terms<'a>,
    outcome: &Outcome<'a>,
) -> Result<Next<'a>, Refusal>
    ensures is { IfOk result (λ n. (types : ℕ → Typ) (m : Meaning) (p : Program) (f : Func) → Agrees types m words.new → next_of types m n (outcome_of types m p f outcome.now) ≡ operates_with (facts_of types m facts.entry) index (place_of types m place.entry) op kind (word_of m left) (word_of m right) (words_of m below.entry) (outcome_of types m p f outcome.now)) }
    ensures grows { (types : ℕ → Typ) (m : Meaning) → Agrees types m words.new → Agrees types m words.old }
{
    match outcome {
        Outcome::Results {
            op: other_op,
            kind: other_kind,
            left: other_left,
            right: other_right,
            ..
        } => {
            if operates_same(
                words,
                op,
                kind,
                left,
                right,
                *other_op,
                *other_kind,
                *other_left,
                *other_right,
            )? {
                may_trap(arena, words, index, place, op, kind, left, right, below)
            } else {
                gives(
                    arena, words, facts, index, place, op, kind, left, right, below,
                )
            }
        }
        _ => gives(
            arena, words, facts, index, place, op, kind, left, right, below,
        ),
    }
}

/// An operator of this kind.
pub fn operates<'a>(
    arena: &'a Bump,
    words: &mut Words<'a>,
    facts: Facts<'a>,
    index: u32,
    place: Place<'a>,
    op: BinOp,
    kind: IntKind,
    outcome: &Outcome<'a>,
) -> Result<Next<'a>, Refusal>
    ensures is { IfOk result (λ n. (types : ℕ → Typ) (m : Meaning) (p : Program) (f : Func) → Agrees types m words.new → next_of types m n (outcome_of types m p f outcome.now) ≡ two_of (words_of m place.entry.operands) (λ a b ws. operates_with (facts_of types m facts.entry) index (place_of types m place.entry) op kind a b ws (outcome_of types m p f outcome.now))) }
    ensures grows { (types : ℕ → Typ) (m : Meaning) → Agrees types m words.new → Agrees types m words.old }
{
    match place.operands {
        Terms::Empty => Ok(Next::Refused),
        Terms::More(_, Terms::Empty) => Ok(Next::Refused),
        Terms::More(right, Terms::More(left, below)) => operates_on(
            arena, words, facts, index, place, op, kind, *left, right, **below, outcome,
        ),
    }
}

/// `conv`, to this kind.
pub fn converts<'a>(
    arena: &'a Bump,
    words: &mut Words<'a>,
    index: u32,
    place: Place<'a>,
    kind: IntKind,
) -> Result<Next<'a>, Refusal>
    ensures is { IfOk result (λ n. (types : ℕ → Typ) (m : Meaning) (o : SourceNext) → Agrees types m words.new → next_of types m n o ≡ one_of (words_of m place.entry.operands) (λ a ws. pushes_word index (place_of types m place.entry) o (converted_to kind a) ws)) }
    ensures grows { (types : ℕ → Typ) (m : Meaning) → Agrees types m words.new → Agrees types m words.old }
{
    match place.operands {
        Terms::Empty => Ok(Next::Refused),
        Terms::More(word, below) => {
            let converted = converted(arena, words, kind, word)?;
            pushes(arena, index, place, converted, *below)
        }
    }
}

// A jump at which the source decides nothing.
fn jumps<'a>(
    words: &Words<'a>,
    index: u32,
    target: u32,
    place: Place<'a>,
    word: WordId,
) -> Result<Next<'a>, Refusal>
    ensures { IfOk result (λ n. (types : ℕ → Typ) (m : Meaning) (o : SourceNext) → Agrees types m words.now → next_of types m n o ≡ decided index target (place_of types m place.entry) (word_of m word) o) }
{
    match term(words, word)? {
        Term::Number(number) => {
            if number == 0 {
                Ok(Next::Goes {
                    course: Course::Quietly,
                    index: target,
                    place,
                })
            } else {
                goes_by(Course::Quietly, index, place)
            }
        }
        _ => goes_by(Course::EitherWay { word, target }, index, place),
    }
}

// A jump where this word is 0.
fn jumps_where<'a>(
    words: &Words<'a>,
    index: u32,
    target: u32,
    place: Place<'a>,
    word: WordId,
    below: Terms<'a>,
    outcome: &Outcome<'a>,
) -> Result<Next<'a>, Refusal>
    ensures { IfOk result (λ n. (types : ℕ → Typ) (m : Meaning) (p : Program) (f : Func) → Agrees types m words.now → next_of types m n (outcome_of types m p f outcome.now) ≡ jumps_at index target (place_of types m place.entry) (word_of m word) (words_of m below.entry) (outcome_of types m p f outcome.now)) }
{
    let under = Place {
        operands: below,
        ..place
    };
    match outcome {
        Outcome::Chooses { word: chosen, .. } => {
            if same_word(words, word, *chosen)? {
                goes_by(Course::Chosen { word, target }, index, under)
            } else {
                Ok(Next::Refused)
            }
        }
        _ => jumps(words, index, target, under, word),
    }
}

/// `jzero`.
pub fn jumps_zero<'a>(
    words: &Words<'a>,
    index: u32,
    target: u32,
    place: Place<'a>,
    outcome: &Outcome<'a>,
) -> Result<Next<'a>, Refusal>
    ensures { IfOk result (λ n. (types : ℕ → Typ) (m : Meaning) (p : Program) (f : Func) → Agrees types m words.now → next_of types m n (outcome_of types m p f outcome.now) ≡ one_of (words_of m place.entry.operands) (λ a ws. jumps_at index target (place_of types m place.entry) a ws (outcome_of types m p f outcome.now))) }
{
    match place.operands {
        Terms::Empty => Ok(Next::Refused),
        Terms::More(word, below) => {
            jumps_where(words, index, target, place, word, *below, outcome)
        }
    }
}
