//! How many words functions take and hand back, by the spellings of their types.
ghost use Rattle.std.specs.Prelude.{◌≡◌, ◌<◌, ◌≤◌, ◌+◌, ◌^◌, ◌∷◌, [], length, ◌||◌};
ghost use Rattle.std.specs.Option.{option_map_or};
ghost use Rattle.std.specs.List.{list_all, list_any};
ghost use Rattle.std.specs.Str.{bytes_eq};
ghost use Rattle.tx_code.specs.Signatures.{takes_of, gives_of, without_safety, without_cv, star_at, may_end, ending, is_result, is_name_byte, ends_in, commas, parameters, function_ending, words_taken, words_returned, scalar_names};
ghost use Rattle.tx_code.specs.Signatures as spelling;
ghost use Rattle.code_walk.specs.Spellings.{Ends, LiesIn, inside_from, is_closure_byte, depth_with, depth_behind, comma_at};

/// What stands at a spelling's end: no group in parentheses, one whose `(` is missing, or the one that begins there.
#[derive(Clone, Copy)]
pub enum Tail {
    Bare,
    Open,
    Group(usize),
}

// A type's spelling, safety aside.
fn without_safety(ty: &[u8]) -> &[u8]
    ensures { result.now ≡ without_safety ty.now }
{
    match ty.strip_suffix(b" transaction_safe") {
        Some(front) => front,
        None => ty,
    }
}

// How many groups are open with one more byte in front; none where the group begins.
fn depth_with(byte: u8, depth: usize) -> Option<usize>
    requires { depth + 1 < 2 ^ 64 }
    ensures { result ≡ depth_with byte depth }
{
    if byte == b'(' {
        depth.checked_sub(1)
    } else if byte == b')' {
        Some(depth + 1)
    } else {
        Some(depth)
    }
}

// What stands at a spelling's end, read from there.
fn tail_of(name: &[u8]) -> Tail
    ensures is { Ends name.now result }
    ensures within { LiesIn name.now result }
{
    let end = match name.len().checked_sub(1) {
        None => return Tail::Bare,
        Some(end) => end,
    };
    if name[end] != b')' {
        return Tail::Bare;
    }
    let mut at = end;
    let mut depth = 0;
    'bytes: while 0 < at {
        at -= 1;
        match depth_with(name[at], depth) {
            None => return Tail::Group(at),
            Some(deeper) => depth = deeper,
        }
    }
    Tail::Open
}

// What stands in the group that begins at a place.
fn inside(name: &[u8], place: usize) -> &[u8]
    requires { place + 1 < length name.now }
    ensures is { result.now ≡ inside_from name.now (place + 1) }
    ensures shorter { length result.now + 2 ≤ length name.now }
{
    &name[place + 1..name.len() - 1]
}

// The group is that of a pointer to a function.
fn is_star(inside: &[u8]) -> bool
    ensures { result ≡ spelling.is_star inside.now }
{
    match inside.first() {
        None => false,
        Some(byte) => *byte == b'*',
    }
}

// The spelling ends in such a group.
fn has_star(name: &[u8]) -> bool
    ensures { result ≡ star_at (ending name.now) }
{
    match tail_of(name) {
        Tail::Bare | Tail::Open => false,
        Tail::Group(at) => is_star(inside(name, at)),
    }
}

// A result may end so.
fn may_end(name: &[u8]) -> bool
    ensures { result ≡ may_end (ending name.now) }
{
    match tail_of(name) {
        Tail::Bare => true,
        Tail::Open => false,
        Tail::Group(at) => !is_star(inside(name, at)) && has_star(&name[..at]),
    }
}

fn is_result(name: &[u8]) -> bool
    ensures { result ≡ is_result name.now }
{
    !name.is_empty() && may_end(name)
}

fn without_prefix<'n>(prefix: &[u8], name: &'n [u8]) -> &'n [u8]
    ensures { result.now ≡ spelling.without_prefix prefix.now name.now }
{
    if name.starts_with(prefix) {
        &name[prefix.len()..]
    } else {
        name
    }
}

fn without_cv(name: &[u8]) -> &[u8]
    ensures { result.now ≡ without_cv name.now }
{
    without_prefix(b"volatile ", without_prefix(b"const ", name))
}

// A letter, a digit or `_`.
fn is_name_byte(byte: u8) -> bool
    ensures { result ≡ is_name_byte byte }
{
    48 <= byte && byte <= 57 || 65 <= byte && byte <= 90 || 97 <= byte && byte <= 122 || byte == 95
}

fn are_name_bytes(name: &[u8]) -> bool
    ensures { result ≡ list_all is_name_byte name.now }
{
    for byte in name {
        if !is_name_byte(*byte) {
            return false;
        }
    }
    true
}

fn is_closure_byte(byte: u8) -> bool
    ensures { result ≡ is_closure_byte byte }
{
    is_name_byte(byte) || byte == b':'
}

fn are_closure_bytes(name: &[u8]) -> bool
    ensures { result ≡ list_all is_closure_byte name.now }
{
    for byte in name {
        if !is_closure_byte(*byte) {
            return false;
        }
    }
    true
}

fn is_scalar(name: &[u8]) -> bool
    ensures { result ≡ list_any (bytes_eq name.now) scalar_names }
{
    name == b"void".as_slice()
        || name == b"bool".as_slice()
        || name == b"char".as_slice()
        || name == b"short".as_slice()
        || name == b"int".as_slice()
        || name == b"long".as_slice()
}

fn ends_in(byte: u8, name: &[u8]) -> bool
    ensures { result ≡ ends_in byte name.now }
{
    match name.len().checked_sub(1) {
        None => false,
        Some(end) => name[end] == byte,
    }
}

fn is_class(name: &[u8]) -> bool
    ensures { result ≡ spelling.is_class name.now }
{
    are_name_bytes(name) && !is_scalar(name)
        || name.starts_with(b"lambda:") && are_closure_bytes(name)
        || name.starts_with(b"std::tx_exception<") && ends_in(b'>', name)
}

fn depth_behind(byte: u8, depth: usize) -> usize
    requires { depth + 1 < 2 ^ 64 }
    ensures { result ≡ depth_behind byte depth }
{
    if byte == b'(' {
        depth + 1
    } else if byte == b')' {
        depth.saturating_sub(1)
    } else {
        depth
    }
}

fn comma_at(byte: u8, depth: usize) -> usize
    ensures { result ≡ comma_at byte depth }
{
    if byte == b',' && depth == 0 { 1 } else { 0 }
}

// Commas outside of inner parentheses.
fn commas(inside: &[u8]) -> usize
    ensures is { result ≡ commas 0 inside.now }
    ensures few { result ≤ length inside.now }
{
    let mut depth = 0;
    let mut count = 0;
    for byte in inside {
        count += comma_at(*byte, depth);
        depth = depth_behind(*byte, depth);
    }
    count
}

fn parameters(inside: &[u8]) -> usize
    requires { length inside.now + 1 < 2 ^ 64 }
    ensures is { result ≡ parameters inside.now }
    ensures few { result ≤ length inside.now + 1 }
{
    if inside.is_empty() {
        0
    } else {
        commas(inside) + 1
    }
}

/// The words that a function takes and hands back.
#[derive(Clone, Copy)]
pub struct Words {
    pub takes: usize,
    pub gives: usize,
}

// Of a function with this result and these parameters.
fn words_with(result_type: &[u8], inside: &[u8]) -> Words
    requires { length inside.now + 2 < 2 ^ 64 }
    ensures takes { result.takes ≡ words_taken (record { before = result_type.now; inside = inside.now }) }
    ensures gives { result.gives ≡ words_returned (record { before = result_type.now; inside = inside.now }) }
{
    let base = without_cv(result_type);
    let parameters = parameters(inside);
    if is_class(base) {
        Words {
            takes: parameters + 1,
            gives: 0,
        }
    } else if base == b"void".as_slice() {
        Words {
            takes: parameters,
            gives: 0,
        }
    } else {
        Words {
            takes: parameters,
            gives: 1,
        }
    }
}

// Of a type's spelling, safety aside; none where it is no function's.
fn words_in(name: &[u8]) -> Words
    ensures takes { result.takes ≡ option_map_or words_taken (function_ending (ending name.now)) 0 }
    ensures gives { result.gives ≡ option_map_or words_returned (function_ending (ending name.now)) 0 }
{
    let none = Words { takes: 0, gives: 0 };
    match tail_of(name) {
        Tail::Bare | Tail::Open => none,
        Tail::Group(at) => {
            let result_type = &name[..at];
            if is_result(result_type) {
                words_with(result_type, inside(name, at))
            } else {
                none
            }
        }
    }
}

/// How many words a function of this type takes.
pub fn takes_of(ty: &[u8]) -> usize
    ensures { result ≡ takes_of ty.now }
{
    words_in(without_safety(ty)).takes
}

/// How many words a function of this type hands back.
pub fn gives_of(ty: &[u8]) -> usize
    ensures { result ≡ gives_of ty.now }
{
    words_in(without_safety(ty)).gives
}
