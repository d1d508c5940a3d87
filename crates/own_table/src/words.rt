//! The words of all threads.
ghost use Rattle.std.specs.Prelude.{◌≡◌, ◌<◌, ℕ, [], length, IfOk, OnOk, slice_get};
ghost use Rattle.own_table.specs.Stripes.{words_at, HasSpare};
ghost use Rattle.own_table.specs.Words.{times_in};

use crate::held::HeldWords;
use std::alloc::{AllocError, Global};

/// For each thread no words.
pub(crate) fn no_words(alloc: Global, threads: u8) -> Result<Vec<HeldWords>, AllocError>
    ensures len { IfOk result (λ v. length v.items ≡ threads) }
    ensures none { IfOk result (λ v. (t w : ℕ) → times_in (words_at v.items t) w ≡ 0) }
{
    let mut all = Vec::new(alloc);
    for _thread in 0..threads {
        all.push(HeldWords::new(alloc))?;
    }
    Ok(all)
}

/// Makes room for so many words more in each list.
pub(crate) fn reserve_words(held: &mut Vec<HeldWords>, count: usize) -> Result<(), AllocError>
    ensures len { length held.new.items ≡ length held.old.items }
    ensures same { (t : ℕ) → words_at held.new.items t ≡ words_at held.old.items t }
    ensures capacity { OnOk result (HasSpare held.new.items count) }
{
    for t in 0..held.len() {
        let words = &mut held[t];
        words.reserve(count)?;
    }
    Ok(())
}
