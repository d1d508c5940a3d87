// The bytes of a string literal (C++14 2.14.3, 2.14.5).

ghost use Rattle.std.specs.Prelude.{◌≡◌, ◌+◌, ◌*◌, ◌<◌, ◌≤◌, IfOk, Some, None, if◌then◌else◌, unwrap_or, ◌++◌, ◌∷◌, []};
ghost use Rattle.cpp_lex.specs.Bytes.{is_digit, digit_value};
ghost use Rattle.cpp_lex.specs.Quoted.{simple_escape};
ghost use Rattle.elab_rules.specs.Strings.{fresh, escaped, read_in, string_bytes, octal, hex};
ghost use Rattle.elab_consts.specs.Shown.{mode_of, reading};

use std::alloc::{AllocError, Global};

/// Where the reading of a spelling is.
#[derive(Clone, Copy)]
pub enum Mode {
    Text,
    /// Behind a backslash.
    Slash,
    /// In an octal number, behind one digit.
    Octal1(u8),
    Octal2(u8),
    Octal3(u8),
    /// In a hexadecimal number.
    Hex(u8),
}

// What a byte counts as a digit of the base.
fn digit(base: u8, b: u8) -> Option<u8>
    requires { base ≤ 16 }
    ensures { result ≡ (if is_digit base b then Some (digit_value b) else None) }
{
    let value = match b {
        b'0'..=b'9' => b - b'0',
        b'a'..=b'f' => b - b'a' + 10,
        b'A'..=b'F' => b - b'A' + 10,
        _ => return None,
    };
    if value < base { Some(value) } else { None }
}

// A number with one more digit. The text of a token has none above 255, so that counts as want of memory.
fn with_digit(value: u8, base: u8, digit: u8) -> Result<u8, AllocError>
    requires { base ≤ 16 }
    ensures { IfOk result (λ v. v ≡ value * base + digit) }
{
    let wide = u32::from(value) * u32::from(base) + u32::from(digit);
    if wide < 256 {
        Ok(wide as u8)
    } else {
        Err(AllocError)
    }
}

// The value of an escape of one letter, or else the letter.
#[tactic(auto, unfolding(cpp_lex::specs::Quoted::simple_escape))]
fn letter_value(b: u8) -> u8
    ensures { result ≡ unwrap_or (simple_escape b) b }
{
    match b {
        b'n' => 10,
        b't' => 9,
        b'v' => 11,
        b'b' => 8,
        b'r' => 13,
        b'f' => 12,
        b'a' => 7,
        _ => b,
    }
}

// A byte that begins something.
fn fresh(bytes: &mut Vec<u8>, b: u8) -> Result<Mode, AllocError>
    ensures { IfOk result (λ m. reading m bytes.new.items ≡ fresh bytes.old.items b) }
{
    if b == b'"' {
        return Ok(Mode::Text);
    }
    if b == b'\\' {
        return Ok(Mode::Slash);
    }
    bytes.push(b)?;
    Ok(Mode::Text)
}

// A byte behind a backslash.
fn escaped(bytes: &mut Vec<u8>, b: u8) -> Result<Mode, AllocError>
    ensures { IfOk result (λ m. reading m bytes.new.items ≡ escaped bytes.old.items b) }
{
    if let Some(value) = digit(8, b) {
        return Ok(Mode::Octal1(value));
    }
    if b == b'x' {
        return Ok(Mode::Hex(0));
    }
    bytes.push(letter_value(b))?;
    Ok(Mode::Text)
}

// A byte behind a number that has ended.
fn ended(bytes: &mut Vec<u8>, value: u8, b: u8) -> Result<Mode, AllocError>
    ensures { IfOk result (λ m. reading m bytes.new.items ≡ fresh (bytes.old.items ++ value ∷ []) b) }
{
    bytes.push(value)?;
    fresh(bytes, b)
}

// A byte behind one octal digit.
fn second_octal(bytes: &mut Vec<u8>, value: u8, b: u8) -> Result<Mode, AllocError>
    ensures { IfOk result (λ m. reading m bytes.new.items ≡ read_in (octal 2 value) bytes.old.items b) }
{
    let Some(digit) = digit(8, b) else {
        return ended(bytes, value, b);
    };
    Ok(Mode::Octal2(with_digit(value, 8, digit)?))
}

// A byte behind two octal digits.
fn third_octal(bytes: &mut Vec<u8>, value: u8, b: u8) -> Result<Mode, AllocError>
    ensures { IfOk result (λ m. reading m bytes.new.items ≡ read_in (octal 1 value) bytes.old.items b) }
{
    let Some(digit) = digit(8, b) else {
        return ended(bytes, value, b);
    };
    Ok(Mode::Octal3(with_digit(value, 8, digit)?))
}

// A byte in a hexadecimal number.
fn next_hex(bytes: &mut Vec<u8>, value: u8, b: u8) -> Result<Mode, AllocError>
    ensures { IfOk result (λ m. reading m bytes.new.items ≡ read_in (hex value) bytes.old.items b) }
{
    let Some(digit) = digit(16, b) else {
        return ended(bytes, value, b);
    };
    Ok(Mode::Hex(with_digit(value, 16, digit)?))
}

// One more byte of a spelling.
fn read_byte(bytes: &mut Vec<u8>, mode: Mode, b: u8) -> Result<Mode, AllocError>
    ensures { IfOk result (λ m. reading m bytes.new.items ≡ read_in (mode_of mode) bytes.old.items b) }
{
    match mode {
        Mode::Text => fresh(bytes, b),
        Mode::Slash => escaped(bytes, b),
        Mode::Octal1(value) => second_octal(bytes, value, b),
        Mode::Octal2(value) => third_octal(bytes, value, b),
        Mode::Octal3(value) => ended(bytes, value, b),
        Mode::Hex(value) => next_hex(bytes, value, b),
    }
}

/// The bytes of strings that are one token, from their spelling.
pub fn string_bytes(alloc: Global, spelling: &[u8]) -> Result<Vec<u8>, AllocError>
    ensures { IfOk result (λ v. v.items ≡ string_bytes spelling.now) }
{
    let mut bytes = Vec::new(alloc);
    let mut mode = Mode::Text;
    for b in spelling {
        mode = read_byte(&mut bytes, mode, *b)?;
    }
    Ok(bytes)
}
