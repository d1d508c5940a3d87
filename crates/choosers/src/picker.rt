//! A picker: a closure that chooses the thread of the next turn.
ghost use Rattle.std.specs.Prelude.{◌≡◌, ◌<◌};
ghost use Rattle.choosers.specs.Picks.{IsSeen};

use crate::Seen;

/// A kept closure that picks a thread number below the limit, in every state.
#[derive(Drop)]
pub struct Picker<G> {
    choose: G,
    limit: u8,
}

impl<G: FnMut(&Seen) -> u8> Picker<G> {
    /// Keeps a closure that may be called in every state and then picks below the limit.
    pub fn new(choose: G, limit: u8) -> Picker<G>
        requires callable { (g : G) (s : _) → G.pre g s }
        requires below { (g h : G) (s : _) (t : _) → IsSeen s.now → G.step g s t h → t < limit }
        ensures choose { result.choose ≡ choose }
        ensures limit { result.limit ≡ limit }
    {
        Picker { choose, limit }
    }

    /// What the kept closure picks, which is below the limit.
    pub fn pick(&mut self, seen: &Seen) -> u8
        requires callable { (g : G) (s : _) → G.pre g s }
        requires below { (g h : G) (s : _) (t : _) → IsSeen s.now → G.step g s t h → t < self.old.limit }
        ensures below { result < self.old.limit }
        ensures limit { self.new.limit ≡ self.old.limit }
        ensures step { G.step self.old.choose seen.entry result self.new.choose }
    {
        let _turn = seen.turn;
        let _started = seen.started;
        (self.choose)(seen)
    }
}
