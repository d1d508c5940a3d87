//! The frames of a thread, taken off one by one.

ghost use Rattle.std.specs.Prelude.{◌≡◌, ◌<◌, ◌∷◌, [], length, MatchOption};
ghost use Rattle.src_frames.specs.Bounds.{frame_of, here_of, frames_of};

use src_bind::Bound;
use src_frames::frames::Frame;
use src_frames::state::State;

/// Takes the innermost frame off, if there is one.
pub(crate) fn pop_frame(state: &mut State, bound: &Bound<'_>) -> Option<Frame>
    ensures frames { MatchOption result (frames_of bound.now state.old ≡ []) (λ f. frames_of bound.now state.old ≡ frame_of bound.now f ∷ frames_of bound.now state.new) }
    ensures here { here_of bound.now state.new ≡ here_of bound.now state.old }
    ensures none { MatchOption result (frames_of bound.now state.new ≡ []) (λ f. length state.new.frames.list.items < length state.old.frames.list.items) }
{
    let _shown = bound;
    match state.frames.pop() {
        Some(frame) => Some(frame),
        None => None,
    }
}
