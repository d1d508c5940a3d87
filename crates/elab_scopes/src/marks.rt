// Where a statement stands: what is known of loops and labels there, to come back to it.

ghost use Rattle.std.specs.Prelude.{◌≡◌};
ghost use Rattle.elab_expr.specs.elab_ctx.Ctx.{ctx_of};
ghost use Rattle.elab_scopes.specs.States.{mark_in};

use crate::state::Mark;
use elab_expr::below::Env;

/// What is known of loops and labels here.
pub fn mark_here(env: &Env) -> Mark
    ensures { result ≡ mark_in (ctx_of env.now) }
{
    Mark {
        label: env.label,
        words: env.labels.words.len(),
        has_default: env.labels.has_default,
        is_past: env.labels.is_past,
        breaks: env.breaks,
        continues: env.continues,
    }
}
