//! The explanation of a rule.
ghost use Rattle.std.specs.Prelude.{◌≡◌, IfSome, is_some, map};
ghost use Rattle.rule_texts.specs.Rules.{ill_formed, others, is_in, is_rule, rule_of};

use crate::table::{Explanation, ILL_FORMED, OTHERS};

// The row of a rule.
fn among(rows: &[Explanation], rule: &str) -> Option<Explanation>
    ensures known { is_some result ≡ is_in (map rule_of rows.now) rule.now }
    ensures named { IfSome result (λ e. rule_of e ≡ rule.now) }
{
    for row in rows {
        if row.rule == rule {
            return Some(*row);
        }
    }
    None
}

// A rule of the language.
fn of_language(rule: &str) -> Option<Explanation>
    ensures known { is_some result ≡ is_in ill_formed rule.now }
    ensures named { IfSome result (λ e. rule_of e ≡ rule.now) }
{
    among(&ILL_FORMED, rule)
}

// A step, a rule of overriding, a limit or a reason.
fn of_others(rule: &str) -> Option<Explanation>
    ensures known { is_some result ≡ is_in others rule.now }
    ensures named { IfSome result (λ e. rule_of e ≡ rule.now) }
{
    among(&OTHERS, rule)
}

/// The explanation of the rule of this name. There is one exactly for each rule that the refusal of a source can name, for each limit of a source and for each reason why a part is unsafe.
pub fn explanation(rule: &str) -> Option<Explanation>
    ensures known { is_some result ≡ is_rule rule.now }
    ensures named { IfSome result (λ e. rule_of e ≡ rule.now) }
{
    match of_language(rule) {
        Some(found) => Some(found),
        None => of_others(rule),
    }
}
