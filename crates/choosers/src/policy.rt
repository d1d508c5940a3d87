//! A policy: a closure that chooses at a clash, within a rule.
ghost use Rattle.std.specs.Prelude.{◌≡◌, ◌↔◌, Bool, true};
ghost use Rattle.std.specs.Fn.{FnReturnsAt};
ghost use Rattle.choosers.specs.Answers.{answer, is_older, KeepsRule};
ghost use Rattle.choosers.specs.Answers.PolicyName.{Older};
ghost use Rattle.choosers.specs.declared.Clash.{Clash};
ghost use Rattle.choosers.specs.declared.Choice.{Choice};

use crate::{Choice, Clash};
use std::marker::PhantomData;

/// What a policy may answer.
pub trait Rule {
    ghost allows: { Clash → Choice → Bool };
}

/// Wait exactly where the asker is older than every transaction that blocks it.
#[derive(Drop)]
pub struct OlderRule;

/// Any answer.
#[derive(Drop)]
pub struct AnyRule;

impl Rule for OlderRule {
    ghost allows = { is_older };
}

impl Rule for AnyRule {
    ghost allows = { λ _ _. true };
}

/// A kept closure that chooses at each clash what the rule `R` allows.
#[derive(Drop)]
pub struct Policy<R, F> {
    answer: F,
    rule: PhantomData<R>,
}

impl<R: Rule, F: Fn(&Clash) -> Choice> Policy<R, F> {
    /// Keeps a closure that may be called on every clash and answers what the rule allows.
    pub fn new(answer: F) -> Policy<R, F>
        requires keeps { KeepsRule (F.IsAlwaysCallable answer) (FnReturnsAt F.Fn answer) R.allows }
        ensures keeps { KeepsRule (F.IsAlwaysCallable result.answer) (FnReturnsAt F.Fn result.answer) R.allows }
        ensures answer { result.answer ≡ answer }
    {
        Policy {
            answer,
            rule: PhantomData,
        }
    }

    /// What the kept closure answers, which the rule allows.
    pub fn ask(&self, clash: &Clash) -> Choice
        requires keeps { KeepsRule (F.IsAlwaysCallable self.now.answer) (FnReturnsAt F.Fn self.now.answer) R.allows }
        ensures answers { FnReturnsAt F.Fn self.now.answer clash.now result }
        ensures allowed { R.allows clash.now result ≡ true }
    {
        let _mine = clash.mine;
        let _least = clash.least;
        let _greatest = clash.greatest;
        let _count = clash.count;
        let _waits = clash.waits;
        (self.answer)(clash)
    }
}

/// The law of `OlderRule`: it allows exactly the answer of the policy `older`.
pub fn older_rule()
    ensures { (clash : Clash) (choice : Choice) → (is_older clash choice ≡ true) ↔ (choice ≡ answer Older clash) }
{}
