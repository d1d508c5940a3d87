//! A function of a bound program, whose steps are taken.

ghost use Rattle.std.specs.Prelude.{◌≡◌, ◌<◌, ◌^◌, None, Some, MatchOption, slice_get, unwrap_or};
ghost use Rattle.src_bind.specs.Infos.{word_of};
ghost use Rattle.src_frames.specs.Bounds.{linked_in, tree_of};
ghost use Rattle.symbolic_leaving.specs.Source.{linked_to, func_of};

use cpp_tree::below::Ty;
use src_bind::{Bound, FuncInfo, WordAt};
use src_frames::trees::TreeAt;

/// A function of a bound program, and the types of the exceptions that it throws: without qualifiers of their own, and one of
/// each.
#[derive(Clone, Copy)]
pub struct Source<'b> {
    pub bound: &'b Bound<'b>,
    pub info: &'b FuncInfo,
    pub types: &'b [Ty],
}

/// The function with this number, if there is one.
#[tactic(auto, using(crate::proofs::Plain::func_is))]
pub fn source_of<'b>(bound: &'b Bound<'b>, number: u32, types: &'b [Ty]) -> Option<Source<'b>>
    ensures found { MatchOption result ((linked_in bound.now).func number ≡ None) (λ s. (linked_in bound.now).func number ≡ Some (func_of s)) }
    ensures bound { MatchOption result Unit (λ s. linked_to s ≡ linked_in bound.now) }
{
    match bound.info(number) {
        Some(info) => Some(Source { bound, info, types }),
        None => None,
    }
}

/// Its unit.
#[tactic(auto, using(crate::proofs::Plain::unit_is))]
pub fn unit_of(source: &Source<'_>) -> u32
    ensures { result ≡ (func_of source.now).unit }
{
    source.info.unit
}

/// The number of a function of its unit.
pub fn number_of(source: &Source<'_>, func: u32) -> u32
    ensures { result ≡ (linked_to source.now).number (func_of source.now).unit func }
{
    source.bound.number(unit_of(source), func)
}

/// The offset of a place in its frame.
pub fn offset_of(source: &Source<'_>, place: u32) -> u32
    ensures { result ≡ unwrap_or (slice_get (func_of source.now).places place) 0 }
{
    match source.info.places.get(place as usize) {
        Some(offset) => *offset,
        None => 0,
    }
}

/// Where the word of a call with this index goes in its frame.
pub fn word_at(source: &Source<'_>, index: usize) -> Option<WordAt>
    ensures found { MatchOption result (slice_get (func_of source.now).words index ≡ None) (λ w. slice_get (func_of source.now).words index ≡ Some (word_of w)) }
    ensures few { MatchOption result Unit (λ w. index < 2 ^ 63) }
{
    match source.info.words.get(index) {
        Some(word) => Some(*word),
        None => None,
    }
}

/// Its body.
#[tactic(auto, using(crate::proofs::Plain::body_is))]
pub fn body_of(source: &Source<'_>) -> TreeAt
    ensures { tree_of source.now.bound.now result ≡ (func_of source.now).body }
{
    TreeAt::Node {
        unit: source.info.unit,
        id: source.info.body,
    }
}
