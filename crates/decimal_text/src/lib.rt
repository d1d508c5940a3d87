//! Numbers in decimal, without leading zeros, at the front of a text.
#![tactic(auto)]

ghost use Rattle.std.specs.Prelude.{◌≡◌, ◌≢◌, ◌≤◌, ◌<◌, ◌∷◌, ◌↔◌, ◌⊎◌};
ghost use Rattle.std.specs.Prelude.{ℕ, List, true, IsTrue, length, slice_index, MatchOption};
ghost use Rattle.std.specs.Char.{is_ascii_digit};
ghost use Rattle.std.specs.List.{prefix_len};
ghost use Rattle.std.specs.Str.{all_ascii_digits};
ghost use Rattle.decimal_text.specs.Number.{read_on, BeginsWith, BeginsWithNone};

/// A number and what follows it.
#[derive(Clone, Copy)]
pub struct Number<'a> {
    pub value: u64,
    pub rest: &'a [u8],
}

/// The number at the front of a text, where it is at most `most`.
pub fn number_at<'a>(text: &'a [u8], most: u64) -> Option<Number<'a>>
    ensures { MatchOption result (BeginsWithNone text.now most) (λ n. BeginsWith text.now most n.value n.rest.now) }
{
    let (digits, rest) = text.split_at(digits_at(text));
    if is_padded(digits) {
        return None;
    }
    match value_of(digits, most) {
        Some(value) => Some(Number { value, rest }),
        None => None,
    }
}

/// How many digits stand at the front of a text.
fn digits_at(text: &[u8]) -> usize
    ensures { result ≡ prefix_len is_ascii_digit text.now }
{
    text.iter().take_while(|b| b.is_ascii_digit()).count()
}

/// Whether there is no digit, or a zero stands before other digits.
fn is_padded(digits: &[u8]) -> bool
    ensures { IsTrue result ↔ ((length digits.now ≡ 0) ⊎ ((1 < length digits.now) × (slice_index digits.now 0 ≡ 48))) }
{
    digits.is_empty() || digits.len() > 1 && digits[0] == b'0'
}

/// The number that the digits write, where it is at most `most`.
fn value_of(digits: &[u8], most: u64) -> Option<u64>
    requires { all_ascii_digits digits.now ≡ true }
    ensures { MatchOption result (most < read_on 0 digits.now) (λ n. (n ≡ read_on 0 digits.now) × (n ≤ most)) }
{
    let mut value: u128 = 0;
    'digits: for digit in digits {
        value = value * 10 + u128::from(*digit - b'0');
        if value > u128::from(most) {
            return None;
        }
    }
    Some(value as u64)
}
