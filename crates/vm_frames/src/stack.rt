//! A stack that the frames of a thread share: what the innermost frame has lies above a base.
ghost use Rattle.std.specs.Prelude.{◌≤◌, length};

use std::alloc::{AllocError, Global};

/// Two items, the lower one first.
#[derive(Clone, Copy)]
pub struct Two<T> {
    pub low: T,
    pub high: T,
}

/// The items of all frames, the outermost frame first, and where those of the innermost begin.
#[derive(Drop)]
pub struct Stack<T> {
    pub items: Vec<T>,
    pub base: usize,
    pub ghost lies: { base ≤ length items.items },
}

ghost use Rattle.std.specs.Prelude.{◌≡◌, ◌++◌, take, drop, reverse, vec_len, vec_capacity};

// Turns round the items from `start` on.
fn turn<T>(items: &mut Vec<T>, start: usize)
    requires { start ≤ length items.old.items }
    ensures items { items.new.items ≡ take start items.old.items ++ reverse (drop start items.old.items) }
    ensures len { vec_len items.new ≡ vec_len items.old }
    ensures capacity { vec_capacity items.new ≡ vec_capacity items.old }
{
    let (_, last) = items.as_mut_slice().split_at_mut(start);
    last.reverse();
}

impl<T: Copy> Stack<T> {
    ghost use Rattle.std.specs.Prelude.{◌<◌, ◌+◌, ◌-◌, ◌∷◌, [], ℕ, false, slice_get, OnOk, IfOk, MatchOption};
    ghost use Rattle.vm_frames.specs.Stacks.{own, under, above, put, has_two, swapped, HasRoom};

    /// A stack of a frame without items.
    pub fn new(alloc: Global) -> Stack<T>
        ensures own { own result ≡ [] }
        ensures under { under result ≡ [] }
    {
        Stack {
            items: Vec::new(alloc),
            base: 0,
        }
    }

    /// The items of all frames.
    pub fn all(&self) -> &[T]
        ensures { result.now ≡ self.now.items.items }
    {
        self.items.as_slice()
    }

    /// Makes room for so many items more.
    pub fn reserve(&mut self, count: usize) -> Result<(), AllocError>
        ensures own { own self.new ≡ own self.old }
        ensures under { under self.new ≡ under self.old }
        ensures base { self.new.base ≡ self.old.base }
        ensures room { OnOk result (HasRoom self.new count) }
    {
        self.items.reserve(count)
    }

    /// How many items the innermost frame has.
    pub fn count(&self) -> usize
        ensures { result ≡ length (own self.now) }
    {
        self.items.len() - self.base
    }

    /// The top item of the innermost frame.
    pub fn top(&self) -> Option<T>
        ensures { MatchOption result (own self.now ≡ []) (λ x. own self.now ≡ x ∷ drop 1 (own self.now)) }
    {
        if self.items.len() == self.base {
            return None;
        }
        Some(self.items[self.items.len() - 1])
    }

    /// Puts an item on the innermost frame.
    pub fn push(&mut self, item: T)
        requires { HasRoom self.old 1 }
        ensures own { own self.new ≡ item ∷ own self.old }
        ensures under { under self.new ≡ under self.old }
        ensures base { self.new.base ≡ self.old.base }
        ensures room { (n : ℕ) → HasRoom self.old (n + 1) → HasRoom self.new n }
    {
        let _ = self.items.push(item);
    }

    /// Puts an item, if there is one, on the innermost frame.
    pub fn put(&mut self, item: Option<T>)
        requires { HasRoom self.old 1 }
        ensures own { own self.new ≡ put item (own self.old) }
        ensures under { under self.new ≡ under self.old }
        ensures base { self.new.base ≡ self.old.base }
    {
        if let Some(item) = item {
            self.push(item);
        }
    }

    /// The item of the innermost frame under so many.
    pub fn item(&self, above: usize) -> Option<T>
        ensures { MatchOption result (length (own self.now) ≤ above) (λ x. (drop above (own self.now) ≡ x ∷ drop (above + 1) (own self.now)) × (above < length (own self.now))) }
    {
        if self.count() <= above {
            return None;
        }
        Some(self.items[self.items.len() - 1 - above])
    }

    /// The last item of all frames.
    pub fn last(&self) -> Option<T>
        ensures { result ≡ slice_get self.now.items.items (length self.now.items.items - 1) }
    {
        self.items.as_slice().last().copied()
    }

    /// The two top items of the innermost frame.
    pub fn top_two(&self) -> Option<Two<T>>
        ensures { MatchOption result (has_two (own self.now) ≡ false) (λ t. own self.now ≡ t.high ∷ t.low ∷ drop 2 (own self.now)) }
    {
        if self.count() < 2 {
            return None;
        }
        Some(Two {
            low: self.items[self.items.len() - 2],
            high: self.items[self.items.len() - 1],
        })
    }

    /// Exchanges the two top items of the innermost frame, where it has two.
    pub fn swap(&mut self)
        requires { HasRoom self.old 2 }
        ensures own { own self.new ≡ swapped (own self.old) }
        ensures under { under self.new ≡ under self.old }
        ensures base { self.new.base ≡ self.old.base }
    {
        if let Some(two) = self.top_two() {
            self.take_off(2);
            self.push(two.high);
            self.push(two.low);
        }
    }

    /// Takes so many items off the innermost frame, or all of them.
    pub fn take_off(&mut self, count: usize)
        ensures own { own self.new ≡ drop count (own self.old) }
        ensures under { under self.new ≡ under self.old }
        ensures base { self.new.base ≡ self.old.base }
        ensures room { (n : ℕ) → HasRoom self.old n → HasRoom self.new n }
    {
        let own = self.items.len() - self.base;
        if own <= count {
            self.items.truncate(self.base);
        } else {
            self.items.truncate(self.items.len() - count);
        }
    }

    /// Cuts the items of the innermost frame to so many.
    pub fn cut(&mut self, depth: usize)
        ensures own { own self.new ≡ drop (length (own self.old) - depth) (own self.old) }
        ensures under { under self.new ≡ under self.old }
        ensures base { self.new.base ≡ self.old.base }
    {
        self.take_off(self.count().saturating_sub(depth));
    }

    /// A new frame begins, which gets so many top items, the deepest first: the base of the frame below.
    pub fn enter(&mut self, count: usize) -> usize
        requires { count ≤ length (own self.old) }
        ensures own { own self.new ≡ reverse (take count (own self.old)) }
        ensures below { above result (under self.new) ≡ drop count (own self.old) }
        ensures under { take result (under self.new) ≡ under self.old }
        ensures base { result ≡ self.old.base }
        ensures order { self.old.base ≤ self.new.base }
        ensures room { (n : ℕ) → HasRoom self.old n → HasRoom self.new n }
    {
        let base = self.base;
        let start = self.items.len() - count;
        turn(&mut self.items, start);
        self.base = start;
        base
    }

    /// The innermost frame is left for the one below, which has this base.
    pub fn leave(&mut self, base: usize)
        requires { base ≤ self.old.base }
        ensures own { own self.new ≡ above base (under self.old) }
        ensures under { under self.new ≡ take base (under self.old) }
        ensures base { self.new.base ≡ base }
        ensures room { (n : ℕ) → HasRoom self.old n → HasRoom self.new n }
    {
        self.items.truncate(self.base);
        self.base = base;
    }

    /// The same once more.
    pub fn copy(&self, alloc: Global) -> Result<Stack<T>, AllocError>
        ensures { IfOk result (λ s. (own s ≡ own self.now) × (under s ≡ under self.now) × (s.base ≡ self.now.base)) }
    {
        let items = Vec::from_slice(alloc, &self.items)?;
        Ok(Stack {
            items,
            base: self.base,
        })
    }
}
