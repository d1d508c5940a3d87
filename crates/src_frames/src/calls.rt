//! Calls (C++14 5.2.2, 10.3).

ghost use Rattle.std.specs.Prelude.{◌≡◌, ◌+◌, ◌∷◌, ◌++◌, ℕ, true, false, [], IfOk, OnOk, MatchOption, None, Some, drop, nat_lt, slice_get};
ghost use Rattle.cpp_tree.specs.tx_events.declared.Event.TheVariants.{Silent};
ghost use Rattle.src_mean.specs.Frames.{at, Gives as GivesWord, Scope as ScopeOf, Passes as PassesWords, Object as ObjectOf};
ghost use Rattle.src_mean.specs.Source.{target_of as target_in, source_of as source_in, result_words as words_of_result, first_word as word_at_first, second_word as word_at_second, enter as enters, enter_found as enters_found, enter_pointed as enters_pointed, spawn as spawns, built_in as runs_built_in, invoke as invokes, next_word as goes_to_word, call as calls, call_slot as calls_slot, is_safe as is_safe_func, give, called_signature, thread_signature};
ghost use Rattle.cpp_tree.specs.Trees.{typ_in};
ghost use Rattle.src_bind.specs.Bounds.{given};
ghost use Rattle.src_bind.specs.Infos.{info_of, word_of as word_of_place};
ghost use Rattle.src_frames.specs.Shown.{here_shown, way_shown, owner_shown, callee_shown, call_shown, places_left, words_of_func};
ghost use Rattle.src_frames.specs.Words.{enters_with};
ghost use Rattle.src_frames.specs.Bounds.{tree_of, all_kids, here_of, frames_of, linked_in, after};

use crate::frames::{CallFrame, Callee, Frame, Here, ObjectFrame, Owner, ValueFrame, Way};
use crate::state::{Going, State};
use crate::texts::called_text;
use crate::trees::{KidsAt, TreeAt, head, rest};
use crate::words::{int_value, long_value, plus};
use cpp_tree::Builtin;
use cpp_tree::below::{End, Event, Trap};
use src_bind::{Bound, FuncInfo, WordAt};
use std::alloc::AllocError;
use std::mem;

/// Where objects are built.
pub fn target_of(way: Way) -> u64
    ensures { result ≡ target_in (way_shown way) }
{
    match way {
        Way::Value => 0,
        Way::Into { target, source: _ } => target,
    }
}

/// What is copied.
pub fn source_of(way: Way) -> u64
    ensures { result ≡ source_in (way_shown way) }
{
    match way {
        Way::Value => 0,
        Way::Into { target: _, source } => source,
    }
}

// The first word, or 0.
fn first_word(words: &[u64]) -> u64
    ensures { result ≡ word_at_first words.now }
{
    match words {
        [] => 0,
        [word, ..] => *word,
    }
}

// The second word, or 0.
fn second_word(words: &[u64]) -> u64
    ensures { result ≡ word_at_second words.now }
{
    match words {
        [] | [_] => 0,
        [_, word, ..] => *word,
    }
}

// Whether the function has a safe body.
fn is_safe(bound: &Bound<'_>, number: u32) -> bool
    ensures { result ≡ is_safe_func ((linked_in bound.now).func number) }
{
    match bound.info(number) {
        Some(info) => info.safe,
        None => false,
    }
}

// The word with this index.
fn word_at(words: &[u64], index: usize) -> Option<u64>
    ensures { result ≡ slice_get words.now index }
{
    match words.get(index) {
        Some(word) => Some(*word),
        None => None,
    }
}

// Where the word with this index goes in the frame of a function.
#[tactic(auto, using(std::proofs::lemmas::Option::gets))]
fn word_place(bound: &Bound<'_>, func: u32, index: usize) -> Option<WordAt>
    ensures { MatchOption result (slice_get (words_of_func ((linked_in bound.now).func func)) index ≡ None) (λ w. slice_get (words_of_func ((linked_in bound.now).func func)) index ≡ Some (word_of_place w)) }
{
    match bound.info(func) {
        Some(info) => match info.words.get(index) {
            Some(place) => Some(*place),
            None => None,
        },
        None => None,
    }
}

/// The number of the function with this address, if a thread may start in it.
fn thread_func(bound: &Bound<'_>, func: u64) -> Option<u32>
    ensures { result ≡ (linked_in bound.now).pointed func thread_signature }
{
    bound.pointed(func, b"void(long)")
}

impl State {
    /// The words before those of a call: the address of a class result.
    pub fn result_words(&self, way: Way) -> Result<Vec<u64>, AllocError>
        ensures { IfOk result (λ v. v.items ≡ words_of_result (way_shown way)) }
    {
        match way {
            Way::Value => Ok(Vec::new(self.alloc)),
            Way::Into { target, source: _ } => self.one_word(target),
        }
    }

    /// One word.
    pub fn one_word(&self, word: u64) -> Result<Vec<u64>, AllocError>
        ensures { IfOk result (λ v. v.items ≡ word ∷ []) }
    {
        let mut words = Vec::new(self.alloc);
        words.push(word)?;
        Ok(words)
    }

    /// Two words.
    pub fn two_words(&self, word: u64, other: u64) -> Result<Vec<u64>, AllocError>
        ensures { IfOk result (λ v. v.items ≡ word ∷ other ∷ []) }
    {
        let mut words = Vec::new(self.alloc);
        words.push(word)?;
        words.push(other)?;
        Ok(words)
    }

    /// A new frame for the function with this number.
    pub fn enter(&mut self, bound: &Bound<'_>, words: Vec<u64>, number: u32) -> Going
        ensures { IfOk result (λ o. after bound.now o self.new ≡ enters (here_of bound.now self.old) words.items ((linked_in bound.now).func number) (frames_of bound.now self.old)) }
    {
        let Some(info) = bound.info(number) else {
            return self.trap(bound, Trap::BadCall);
        };
        match self.end_with(info) {
            Some(end) => self.enter_at(bound, number, info, words, end),
            None => self.trap(bound, Trap::StackOverflow),
        }
    }

    // Where the frame of a function would end, if the stack has the room.
    fn end_with(&self, info: &FuncInfo) -> Option<u64>
        ensures { MatchOption result (nat_lt self.now.here.limit (self.now.here.end + info.now.size) ≡ true) (λ end. (nat_lt self.now.here.limit (self.now.here.end + info.now.size) ≡ false) × (end ≡ self.now.here.end + info.now.size)) }
    {
        let limit = self.here.limit;
        let end = self.here.end.checked_add(u64::from(info.size))?;
        if limit < end { None } else { Some(end) }
    }

    // A new frame, which ends there.
    fn enter_at(
        &mut self,
        bound: &Bound<'_>,
        number: u32,
        info: &FuncInfo,
        words: Vec<u64>,
        end: u64,
    ) -> Going
        requires found { (linked_in bound.now).func number ≡ Some (info_of (given bound.now).program info.now) }
        requires end { end ≡ self.old.here.end + info.now.size }
        ensures { IfOk result (λ o. after bound.now o self.new ≡ enters_with (here_of bound.now self.old) words.items (info_of (given bound.now).program info.now) (frames_of bound.now self.old)) }
    {
        let inside = Here {
            frame: self.here.end,
            end,
            limit: self.here.limit,
            func: Some(number),
            temporaries: Vec::new(self.alloc),
        };
        let caller = mem::replace(&mut self.here, inside);
        let body = TreeAt::Node {
            unit: info.unit,
            id: info.body,
        };
        let stops = info.stops;
        self.push(bound, Frame::Call(CallFrame::Called { caller, stops }))?;
        self.push(bound, Frame::Then(Way::Value, body))?;
        let passes = CallFrame::Passes {
            words,
            func: number,
            from: 0,
        };
        self.goes(bound, Frame::Call(passes))
    }

    // A function that was found by a number.
    fn enter_found(&mut self, bound: &Bound<'_>, words: Vec<u64>, number: u32) -> Going
        ensures { IfOk result (λ o. after bound.now o self.new ≡ enters_found (here_of bound.now self.old) words.items ((linked_in bound.now).func number) (frames_of bound.now self.old)) }
    {
        if self.has_no_atomic(bound) || is_safe(bound, number) {
            self.enter(bound, words, number)
        } else {
            self.trap(bound, Trap::UnsafeCall)
        }
    }

    // The function that a pointer points to.
    fn enter_pointed(
        &mut self,
        bound: &Bound<'_>,
        words: Vec<u64>,
        address: u64,
        pointer: TreeAt,
    ) -> Going
        ensures { IfOk result (λ o. after bound.now o self.new ≡ enters_pointed (linked_in bound.now) (here_of bound.now self.old) words.items ((linked_in bound.now).pointed address (called_signature (typ_in (tree_of bound.now pointer)))) (frames_of bound.now self.old)) }
    {
        let text = called_text(self.alloc, bound, pointer)?;
        match bound.pointed(address, &text) {
            Some(number) => self.enter_found(bound, words, number),
            None => self.trap(bound, Trap::BadCall),
        }
    }

    // Starts a thread in the function with this address.
    fn spawn(&mut self, bound: &Bound<'_>, address: u64, argument: u64) -> Going
        ensures { IfOk result (λ o. after bound.now o self.new ≡ spawns (here_of bound.now self.old) ((linked_in bound.now).pointed address thread_signature) argument (frames_of bound.now self.old)) }
    {
        match thread_func(bound, address) {
            Some(number) => {
                let func = u64::from(number);
                let arg = long_value(argument);
                let event = Event::Spawn { func, arg };
                self.comes(bound, event, Frame::Value(ValueFrame::Replied))
            }
            None => self.trap(bound, Trap::BadCall),
        }
    }

    // A function that needs no declaration.
    fn built_in(&mut self, bound: &Bound<'_>, which: Builtin, words: &[u64]) -> Going
        ensures { IfOk result (λ o. after bound.now o self.new ≡ runs_built_in (linked_in bound.now) (here_of bound.now self.old) which words.now (frames_of bound.now self.old)) }
    {
        let word = first_word(words);
        match which {
            Builtin::PutChar => {
                let byte = (word % 256) as u8;
                self.comes(bound, Event::Out { byte }, Frame::Gives(u64::from(byte)))
            }
            Builtin::GetChar => self.comes(bound, Event::Inp, Frame::Value(ValueFrame::Replied)),
            Builtin::Spawn => self.spawn(bound, word, second_word(words)),
            Builtin::Join => {
                let id = int_value(word);
                self.comes(bound, Event::Join { id }, Frame::Gives(0))
            }
            Builtin::Abort => self.halt(bound, End::Abort),
        }
    }

    // All words are there.
    fn invoke(&mut self, bound: &Bound<'_>, callee: Callee, words: Vec<u64>) -> Going
        ensures { IfOk result (λ o. after bound.now o self.new ≡ invokes (linked_in bound.now) (here_of bound.now self.old) (callee_shown (given bound.now).program callee) words.items (frames_of bound.now self.old)) }
    {
        match callee {
            Callee::Known(number) => self.enter(bound, words, number),
            Callee::Virtual(number) => self.enter_found(bound, words, number),
            Callee::Pointer { address, pointer } => {
                self.enter_pointed(bound, words, address, pointer)
            }
            Callee::Builtin(which) => self.built_in(bound, which, &words),
        }
    }

    /// The next word, or the call.
    #[tactic(auto, using(crate::proofs::Steps::word_more, crate::proofs::Steps::word_none))]
    pub fn next_word(
        &mut self,
        bound: &Bound<'_>,
        callee: Callee,
        before: Vec<u64>,
        words: KidsAt,
    ) -> Going
        ensures { IfOk result (λ o. after bound.now o self.new ≡ goes_to_word (linked_in bound.now) (here_of bound.now self.old) (callee_shown (given bound.now).program callee) before.items (all_kids bound.now words) (frames_of bound.now self.old)) }
    {
        match head(bound, words) {
            Some(word) => {
                let rest = rest(bound, words);
                let frame = CallFrame::Words {
                    callee,
                    before,
                    rest,
                };
                self.push(bound, Frame::Call(frame))?;
                self.run_next(bound, Way::Value, word)
            }
            None => self.invoke(bound, callee, before),
        }
    }

    /// Words and call, in the scope of the argument objects.
    pub fn call(
        &mut self,
        bound: &Bound<'_>,
        callee: Callee,
        before: Vec<u64>,
        words: KidsAt,
    ) -> Going
        ensures { IfOk result (λ o. after bound.now o self.new ≡ calls (linked_in bound.now) (here_of bound.now self.old) (callee_shown (given bound.now).program callee) before.items (all_kids bound.now words) (frames_of bound.now self.old)) }
    {
        self.push_scope(bound, Owner::Call, true)?;
        self.next_word(bound, callee, before, words)
    }

    /// A scope in which no object waits.
    pub fn push_scope(
        &mut self,
        bound: &Bound<'_>,
        owner: Owner,
        always: bool,
    ) -> Result<(), AllocError>
        ensures frames { OnOk result (frames_of bound.now self.new ≡ ScopeOf (owner_shown owner) always [] ∷ frames_of bound.now self.old) }
        ensures here { OnOk result (here_of bound.now self.new ≡ here_of bound.now self.old) }
    {
        let waiting = Vec::new(self.alloc);
        let frame = ObjectFrame::Scope {
            owner,
            always,
            waiting,
        };
        self.push(bound, Frame::Object(frame))
    }

    // Goes on with a word of a call.
    fn give_word(
        &mut self,
        bound: &Bound<'_>,
        callee: Callee,
        mut before: Vec<u64>,
        word: u64,
        words: KidsAt,
    ) -> Going
        ensures { IfOk result (λ o. after bound.now o self.new ≡ goes_to_word (linked_in bound.now) (here_of bound.now self.old) (callee_shown (given bound.now).program callee) (before.items ++ word ∷ []) (all_kids bound.now words) (frames_of bound.now self.old)) }
    {
        before.push(word)?;
        self.next_word(bound, callee, before, words)
    }

    // Goes on with the class address of an object.
    fn give_table(
        &mut self,
        bound: &Bound<'_>,
        number: Option<u32>,
        before: Vec<u64>,
        words: KidsAt,
    ) -> Going
        ensures { IfOk result (λ o. after bound.now o self.new ≡ calls_slot (linked_in bound.now) (here_of bound.now self.old) number before.items (all_kids bound.now words) (frames_of bound.now self.old)) }
    {
        match number {
            Some(number) => self.call(bound, Callee::Virtual(number), before, words),
            None => self.trap(bound, Trap::BadVirtual),
        }
    }

    // Passes the next word into the frame at hand.
    #[tactic(auto, using(crate::proofs::Steps::pass_no_word, crate::proofs::Steps::pass_no_place, crate::proofs::Steps::pass_one))]
    fn pass_word(&mut self, bound: &Bound<'_>, words: Vec<u64>, func: u32, from: usize) -> Going
        ensures { (v : ℕ) → IfOk result (λ o. after bound.now o self.new ≡ give (linked_in bound.now) (here_of bound.now self.old) v (PassesWords (drop from words.items) (places_left (given bound.now) func from) ∷ (frames_of bound.now self.old))) }
    {
        let Some(word) = word_at(&words, from) else {
            return Ok(Some(0));
        };
        let Some(place) = word_place(bound, func, from) else {
            return Ok(Some(0));
        };
        let addr = plus(self.here.frame, u64::from(place.offset));
        let others = CallFrame::Passes {
            words,
            func,
            from: from + 1,
        };
        self.write(
            bound,
            addr,
            place.kind,
            place.volatile,
            word,
            Frame::Call(others),
        )
    }

    // Reads the class address of an object.
    fn give_object(
        &mut self,
        bound: &Bound<'_>,
        mut before: Vec<u64>,
        object: u64,
        pointer: u32,
        slot: (u32, u32),
        words: KidsAt,
    ) -> Going
        ensures { IfOk result (λ o. after bound.now o self.new ≡ give (linked_in bound.now) (here_of bound.now self.old) object (ObjectOf before.items slot.0 slot.1 pointer (all_kids bound.now words) ∷ (frames_of bound.now self.old))) }
    {
        before.push(object)?;
        let event = Event::Load {
            addr: plus(object, u64::from(pointer)),
            size: 8,
            volatile: false,
        };
        let frame = CallFrame::Slot {
            before,
            class: slot.0,
            slot: slot.1,
            rest: words,
        };
        self.comes(bound, event, Frame::Call(frame))
    }

    // A function is left by its end.
    fn return_to(&mut self, bound: &Bound<'_>, caller: Here, value: u64) -> Going
        ensures { IfOk result (λ o. after bound.now o self.new ≡ at Silent (here_shown (given bound.now) caller) (GivesWord value ∷ (frames_of bound.now self.old))) }
    {
        self.here = caller;
        self.gives(bound, value)
    }

    /// Goes on with a value for a call.
    pub fn give_call(&mut self, bound: &Bound<'_>, frame: CallFrame, value: u64) -> Going
        ensures { IfOk result (λ o. after bound.now o self.new ≡ give (linked_in bound.now) (here_of bound.now self.old) value (call_shown (given bound.now) frame ∷ frames_of bound.now self.old)) }
    {
        match frame {
            CallFrame::Words {
                callee,
                before,
                rest,
            } => self.give_word(bound, callee, before, value, rest),
            CallFrame::Object {
                before,
                class,
                slot,
                pointer,
                rest,
            } => self.give_object(bound, before, value, pointer, (class, slot), rest),
            CallFrame::Slot {
                before,
                class,
                slot,
                rest,
            } => self.give_table(bound, bound.slot(value, class, slot), before, rest),
            CallFrame::Pointer {
                before,
                pointer,
                rest,
            } => {
                let callee = Callee::Pointer {
                    address: value,
                    pointer,
                };
                self.call(bound, callee, before, rest)
            }
            CallFrame::Passes { words, func, from } => self.pass_word(bound, words, func, from),
            CallFrame::Called { caller, stops: _ } => self.return_to(bound, caller, value),
        }
    }
}
