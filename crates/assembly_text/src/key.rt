//! The words that begin lines.
ghost use Rattle.std.specs.Prelude.{◌≡◌, map};
ghost use Rattle.assembly_text.specs.Words.{key_by, key_of};
ghost use Rattle.assembly_text.specs.Keys.{keyed};

use object_bytes::Op;

/// What the word of a line stands for. A name has a line of another form.
#[derive(Clone, Copy, PartialEq, Eq, Debug)]
pub(crate) enum Key {
    Txob,
    Source,
    Member,
    Cell,
    Plain,
    Safe,
    Row,
    Line,
    /// The mnemonic of an instruction. `class`, `global`, `func` and `slot` also begin lines of entries, and `end` ends the text.
    Op(Op),
}

const KEYS: [(&[u8], Key); 50] = [
    (b"txob", Key::Txob),
    (b"source", Key::Source),
    (b"member", Key::Member),
    (b"cell", Key::Cell),
    (b"plain", Key::Plain),
    (b"safe", Key::Safe),
    (b"row", Key::Row),
    (b"line", Key::Line),
    (b"push", Key::Op(Op::Push)),
    (b"dup", Key::Op(Op::Dup)),
    (b"drop", Key::Op(Op::Pop)),
    (b"swap", Key::Op(Op::Swap)),
    (b"frame", Key::Op(Op::FrameAddr)),
    (b"global", Key::Op(Op::GlobalAddr)),
    (b"func", Key::Op(Op::FuncAddr)),
    (b"class", Key::Op(Op::ClassAddr)),
    (b"load", Key::Op(Op::Load)),
    (b"store", Key::Op(Op::Store)),
    (b"tload", Key::Op(Op::TLoad)),
    (b"tstore", Key::Op(Op::TStore)),
    (b"vload", Key::Op(Op::VLoad)),
    (b"vstore", Key::Op(Op::VStore)),
    (b"bin", Key::Op(Op::Bin)),
    (b"neg", Key::Op(Op::Neg)),
    (b"conv", Key::Op(Op::Conv)),
    (b"jump", Key::Op(Op::Jump)),
    (b"jzero", Key::Op(Op::JumpZero)),
    (b"call", Key::Op(Op::Call)),
    (b"tcall", Key::Op(Op::TCall)),
    (b"calli", Key::Op(Op::CallIndirect)),
    (b"tcalli", Key::Op(Op::TCallIndirect)),
    (b"slot", Key::Op(Op::Slot)),
    (b"ret", Key::Op(Op::Ret)),
    (b"begin", Key::Op(Op::Begin)),
    (b"end", Key::Op(Op::End)),
    (b"bsync", Key::Op(Op::BeginSync)),
    (b"esync", Key::Op(Op::EndSync)),
    (b"out", Key::Op(Op::Out)),
    (b"inp", Key::Op(Op::Inp)),
    (b"spawn", Key::Op(Op::Spawn)),
    (b"join", Key::Op(Op::Join)),
    (b"abort", Key::Op(Op::Abort)),
    (b"xnew", Key::Op(Op::NewException)),
    (b"xput", Key::Op(Op::PutException)),
    (b"throw", Key::Op(Op::Throw)),
    (b"rethrow", Key::Op(Op::Rethrow)),
    (b"xget", Key::Op(Op::GetException)),
    (b"xdone", Key::Op(Op::EndHandler)),
    (b"resume", Key::Op(Op::Resume)),
    (b"over", Key::Op(Op::Over)),
];

fn key_by(rows: &[(&[u8], Key)], word: &[u8]) -> Option<Key>
    ensures { result ≡ key_by (map keyed rows.now) word.now }
{
    for row in rows {
        if row.0 == word {
            return Some(row.1);
        }
    }
    None
}

/// What a word stands for.
#[tactic(auto, unfolding(crate::specs::Words::key_of, crate::specs::Words::keys))]
pub(crate) fn key_of(word: &[u8]) -> Option<Key>
    ensures { result ≡ key_of word.now }
{
    key_by(&KEYS, word)
}
