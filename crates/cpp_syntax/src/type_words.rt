//! Words that spell a type together: C++14 7.1.6.2, table 10.

ghost use Rattle.std.specs.Prelude.{◌≡◌, ◌≤◌, true};
ghost use Rattle.cpp_syntax.specs.Shapes.{BehindWords};
ghost use Rattle.cpp_syntax.specs.Tallies.{is_tally, with_word, WordCame, IntegerWords};
ghost use Rattle.cpp_syntax.specs.Types.{is_integer_word};

use crate::outline::Outline;
use crate::terminal::Terminal;

/// How many words of each sort an integer type has.
#[derive(Clone, Copy)]
pub(crate) struct Words {
    pub signs: u32,
    pub chars: u32,
    pub shorts: u32,
    pub ints: u32,
    pub longs: u32,
}

impl Outline {
    /// The index behind the words that spell a type from an index on, as many as there are.
    pub fn behind_type_words(&self, at: usize) -> usize
        ensures { BehindWords self.now at result }
    {
        if self.is_at(at, Terminal::Void) {
            return at + 1;
        }
        if self.is_at(at, Terminal::Bool) {
            return at + 1;
        }
        if self.is_at(at, Terminal::Auto) {
            return at + 1;
        }
        self.behind_integer_words(at)
    }

    /// The same of the words of an integer type.
    fn behind_integer_words(&self, at: usize) -> usize
        ensures { IntegerWords self.now at result }
    {
        let mut words = Words {
            signs: 0,
            chars: 0,
            shorts: 0,
            ints: 0,
            longs: 0,
        };
        let mut next = at;
        'words: loop {
            let Some(more) = words.with(self.terminal(next)) else {
                return next;
            };
            words = more;
            next += 1;
        }
    }
}

impl Words {
    /// The words with one more, where that is still an integer type.
    fn with(self, terminal: Terminal) -> Option<Words>
        requires { is_tally self ≡ true }
        ensures { WordCame self terminal result }
    {
        if !is_integer_word(terminal) {
            return None;
        }
        let words = self.and(terminal);
        if words.is_type() { Some(words) } else { None }
    }

    /// The words with one more.
    fn and(self, terminal: Terminal) -> Words
        requires { is_tally self ≡ true }
        ensures { result ≡ with_word self terminal }
    {
        match terminal {
            Terminal::Signed => Words {
                signs: self.signs + 1,
                ..self
            },
            Terminal::Unsigned => Words {
                signs: self.signs + 1,
                ..self
            },
            Terminal::Char => Words {
                chars: self.chars + 1,
                ..self
            },
            Terminal::Short => Words {
                shorts: self.shorts + 1,
                ..self
            },
            Terminal::Int => Words {
                ints: self.ints + 1,
                ..self
            },
            Terminal::Long => Words {
                longs: self.longs + 1,
                ..self
            },
            _ => self,
        }
    }

    /// Whether such words are an integer type: C++14 table 10.
    fn is_type(self) -> bool
        requires few { (self.signs ≤ 3) × (self.chars ≤ 3) × (self.shorts ≤ 3) × (self.ints ≤ 3) × (self.longs ≤ 3) }
        ensures { result ≡ is_tally self }
    {
        let others = self.shorts + self.ints + self.longs;
        self.signs <= 1
            && self.chars <= 1
            && self.shorts <= 1
            && self.ints <= 1
            && self.longs <= 2
            && (self.chars == 0 || others == 0)
            && (self.shorts == 0 || self.longs == 0)
    }
}

/// Whether a word stands in integer types.
fn is_integer_word(terminal: Terminal) -> bool
    ensures { result ≡ is_integer_word terminal }
{
    matches!(
        terminal,
        Terminal::Signed
            | Terminal::Unsigned
            | Terminal::Char
            | Terminal::Short
            | Terminal::Int
            | Terminal::Long
    )
}
