//! What was made and is not kept.

ghost use Rattle.std.specs.Prelude.{◌≡◌, take};
ghost use Rattle.elab_rules.specs.elab_ctx.Ctx.{work_of};

use elab_rules::below::Work;

/// The frame and the globals are cut back to so many; the nodes stay.
pub fn cut_back(work: &mut Work, frame: usize, globals: usize)
    ensures work { work_of work.new ≡ record { frame = take frame (work_of work.old).frame; globals = take globals (work_of work.old).globals } }
    ensures nodes { work.new.nodes ≡ work.old.nodes }
{
    work.frame.truncate(frame);
    work.globals.truncate(globals);
}
