//! The rows of a thread that has no transaction.
ghost use Rattle.std.specs.Prelude.{◌≡◌, ℕ, ◌<◌, ◌≤◌, ◌^◌, ◌-◌, Bool, true, false, Some, None, length, pos, IfOk, OnErr};
ghost use Rattle.tx_events.specs.Memory.{can_access, load, store, word_of};
ghost use Rattle.tx_events.specs.Thread.{Answers};
ghost use Rattle.tx_events.specs.World.{target};
ghost use Rattle.tx_events.specs.declared.BlockKind.{BlockKind};
ghost use Rattle.tx_events.specs.declared.Event.TheVariants.{Silent, Load, Store, Out, Inp, Spawn, Join, BeginAtomic, BeginSync, EndSync, Done};
ghost use Rattle.tx_events.specs.declared.Reply.TheVariants.{Nothing};
ghost use Rattle.tx_memory.specs.View.{words_of};
ghost use Rattle.tx_runtime.specs.Here.{GoesOutside, Turns, IsJoined};
ghost use Rattle.tx_runtime.specs.View.{machine_in, layout_in};
ghost use Rattle.tx_serial.specs.Machine.{Local, busy};
ghost use Rattle.tx_serial.specs.Turn.{steps, order_gains, ran, begins};

use crate::access::word_of;
use crate::engine::Engine;
use crate::thread::ThreadSlot;
use std::alloc::AllocError;
use tx_events::{Actor, End, Reply, Trap, TurnKind};

impl<A: Actor> Engine<A, A::Saved> {
    pub(crate) fn silent(&mut self, t: u8) -> Result<TurnKind, AllocError>
        requires here { GoesOutside A.is_reached A.thread t (machine_in A.state A.saved_state self.old) Silent }
        ensures turned { IfOk result (λ kind. Turns A.state A.saved_state A.thread t self.old kind self.new) }
        ensures same { OnErr result (machine_in A.state A.saved_state self.new ≡ machine_in A.state A.saved_state self.old) }
        ensures layout { layout_in self.new ≡ layout_in self.old }
    {
        self.step_alone(t, Reply::Nothing)
    }

    /// A load reads, unless a transaction of another thread has stored to the word.
    pub(crate) fn load_outside(
        &mut self,
        t: u8,
        addr: u64,
        size: u8,
    ) -> Result<TurnKind, AllocError>
        requires here { (vol : Bool) × GoesOutside A.is_reached A.thread t (machine_in A.state A.saved_state self.old) (Load addr size vol) }
        ensures turned { IfOk result (λ kind. Turns A.state A.saved_state A.thread t self.old kind self.new) }
        ensures same { OnErr result (machine_in A.state A.saved_state self.new ≡ machine_in A.state A.saved_state self.old) }
        ensures layout { layout_in self.new ≡ layout_in self.old }
    {
        let Some(value) = self.memory.load(addr, size) else {
            return self.halt(t, End::Trapped(Trap::BadAddress));
        };
        let word = word_of(addr);
        match self.blockers(t, word, false) {
            Some(blockers) => Ok(self.wait(t, word, blockers)),
            None => self.step_in_order(t, Reply::Loaded { value }),
        }
    }

    /// A store writes, unless a transaction of another thread holds the word.
    pub(crate) fn store_outside(
        &mut self,
        t: u8,
        addr: u64,
        size: u8,
        value: u64,
    ) -> Result<TurnKind, AllocError>
        requires here { (vol : Bool) × GoesOutside A.is_reached A.thread t (machine_in A.state A.saved_state self.old) (Store addr size value vol) }
        ensures turned { IfOk result (λ kind. Turns A.state A.saved_state A.thread t self.old kind self.new) }
        ensures same { OnErr result (machine_in A.state A.saved_state self.new ≡ machine_in A.state A.saved_state self.old) }
        ensures layout { layout_in self.new ≡ layout_in self.old }
    {
        let Some(_old) = self.memory.load(addr, size) else {
            return self.halt(t, End::Trapped(Trap::BadAddress));
        };
        let word = word_of(addr);
        match self.blockers(t, word, true) {
            Some(blockers) => Ok(self.wait(t, word, blockers)),
            None => self.write_outside(t, addr, size, value),
        }
    }

    /// A store that nothing keeps off.
    fn write_outside(
        &mut self,
        t: u8,
        addr: u64,
        size: u8,
        value: u64,
    ) -> Result<TurnKind, AllocError>
        requires here { (vol : Bool) × GoesOutside A.is_reached A.thread t (machine_in A.state A.saved_state self.old) (Store addr size value vol) }
        requires access { can_access (layout_in self.old) addr size ≡ true }
        ensures done { IfOk result (λ kind. (l : Local A.State) → (machine_in A.state A.saved_state self.old).threads t ≡ Some l
            → record { machine = machine_in A.state A.saved_state self.new; kind = kind }
            ≡ ran (record (order_gains t (steps t (machine_in A.state A.saved_state self.old) (record l { state = A.thread.after l.state Nothing }))) {
              memory = store (words_of self.old.memory) addr size value;
            })) }
        ensures same { OnErr result (machine_in A.state A.saved_state self.new ≡ machine_in A.state A.saved_state self.old) }
        ensures layout { layout_in self.new ≡ layout_in self.old }
    {
        self.ready(t)?;
        self.order.reserve(1)?;
        self.order.push_reserved(t);
        self.memory.store(addr, size, value);
        self.step(t, Reply::Nothing);
        Ok(TurnKind::Ran)
    }

    /// An outermost atomic block begins, unless another thread holds the lock.
    pub(crate) fn begin_outermost(&mut self, t: u8) -> Result<TurnKind, AllocError>
        requires here { (kind : BlockKind) × GoesOutside A.is_reached A.thread t (machine_in A.state A.saved_state self.old) (BeginAtomic kind) }
        requires births { self.old.births < 2 ^ 64 - 1 }
        ensures turned { IfOk result (λ kind. Turns A.state A.saved_state A.thread t self.old kind self.new) }
        ensures same { OnErr result (machine_in A.state A.saved_state self.new ≡ machine_in A.state A.saved_state self.old) }
        ensures layout { layout_in self.new ≡ layout_in self.old }
    {
        if let Some(holder) = self.lock.other_holder(t) {
            return Ok(TurnKind::BlockWait { holder });
        }
        self.begin_block(t)
    }

    /// An outermost atomic block that nothing keeps waiting.
    fn begin_block(&mut self, t: u8) -> Result<TurnKind, AllocError>
        requires here { (kind : BlockKind) × GoesOutside A.is_reached A.thread t (machine_in A.state A.saved_state self.old) (BeginAtomic kind) }
        requires births { self.old.births < 2 ^ 64 - 1 }
        ensures done { IfOk result (λ kind. (l : Local A.State) → (machine_in A.state A.saved_state self.old).threads t ≡ Some l
            → record { machine = machine_in A.state A.saved_state self.new; kind = kind }
            ≡ begins t (machine_in A.state A.saved_state self.old) l (A.thread.after l.state Nothing) None) }
        ensures same { OnErr result (machine_in A.state A.saved_state self.new ≡ machine_in A.state A.saved_state self.old) }
        ensures layout { layout_in self.new ≡ layout_in self.old }
    {
        self.ready_to_note(t, 0)?;
        let thread = &mut self.threads[t as usize];
        thread.begin(self.births)?;
        self.births += 1;
        Ok(TurnKind::Ran)
    }

    /// A synchronized block begins, unless another thread holds the lock or has a transaction that may still change memory.
    pub(crate) fn begin_sync(&mut self, t: u8) -> Result<TurnKind, AllocError>
        requires here { GoesOutside A.is_reached A.thread t (machine_in A.state A.saved_state self.old) BeginSync }
        requires depth { self.old.lock.depth < 2 ^ 64 - 1 }
        ensures turned { IfOk result (λ kind. Turns A.state A.saved_state A.thread t self.old kind self.new) }
        ensures same { OnErr result (machine_in A.state A.saved_state self.new ≡ machine_in A.state A.saved_state self.old) }
        ensures layout { layout_in self.new ≡ layout_in self.old }
    {
        if let Some(holder) = self.lock.other_holder(t) {
            return Ok(TurnKind::BlockWait { holder });
        }
        if let Some(holder) = self.busy(t) {
            return Ok(TurnKind::BlockWait { holder });
        }
        let entered = self.lock.enter(t);
        let kind = self.step_in_order(t, Reply::Nothing)?;
        self.lock = entered;
        Ok(kind)
    }

    /// The least thread other than `t` whose transaction is open or gives up.
    fn busy(&self, t: u8) -> Option<u8>
        ensures { result ≡ busy t (machine_in A.state A.saved_state self.now) }
    {
        for u in 0..self.threads.len() {
            if u as u8 != t && self.threads[u].is_live() {
                return Some(u as u8);
            }
        }
        None
    }

    pub(crate) fn end_sync(&mut self, t: u8) -> Result<TurnKind, AllocError>
        requires here { GoesOutside A.is_reached A.thread t (machine_in A.state A.saved_state self.old) EndSync }
        ensures turned { IfOk result (λ kind. Turns A.state A.saved_state A.thread t self.old kind self.new) }
        ensures same { OnErr result (machine_in A.state A.saved_state self.new ≡ machine_in A.state A.saved_state self.old) }
        ensures layout { layout_in self.new ≡ layout_in self.old }
    {
        let left = self.lock.leave();
        let kind = self.step_in_order(t, Reply::Nothing)?;
        self.lock = left;
        Ok(kind)
    }

    /// A thread is started, unless as many were as may be.
    pub(crate) fn spawn(&mut self, t: u8, func: u64, arg: i64) -> Result<TurnKind, AllocError>
        requires here { GoesOutside A.is_reached A.thread t (machine_in A.state A.saved_state self.old) (Spawn func arg) }
        ensures turned { IfOk result (λ kind. Turns A.state A.saved_state A.thread t self.old kind self.new) }
        ensures same { OnErr result (machine_in A.state A.saved_state self.new ≡ machine_in A.state A.saved_state self.old) }
        ensures layout { layout_in self.new ≡ layout_in self.old }
    {
        let number = self.threads.len() as u8;
        if number >= self.limit {
            return self.halt(t, End::Trapped(Trap::TooManyThreads));
        }
        self.ready(t)?;
        self.order.reserve(1)?;
        self.threads.reserve(1)?;
        let thread = &self.threads[t as usize];
        let child = thread.actor.start(number, func, arg)?;
        self.order.push_reserved(t);
        self.threads
            .push_reserved(ThreadSlot::new(self.alloc, child));
        self.step(
            t,
            Reply::Id {
                id: i32::from(number),
            },
        );
        Ok(TurnKind::Ran)
    }

    /// The thread waits for another one to end.
    pub(crate) fn join(&mut self, t: u8, id: i32) -> Result<TurnKind, AllocError>
        requires here { GoesOutside A.is_reached A.thread t (machine_in A.state A.saved_state self.old) (Join id) }
        ensures turned { IfOk result (λ kind. Turns A.state A.saved_state A.thread t self.old kind self.new) }
        ensures same { OnErr result (machine_in A.state A.saved_state self.new ≡ machine_in A.state A.saved_state self.old) }
        ensures layout { layout_in self.new ≡ layout_in self.old }
    {
        let Some(number) = self.joined(t, id) else {
            return self.halt(t, End::Trapped(Trap::BadJoin));
        };
        if self.threads[number as usize].ended {
            self.step_in_order(t, Reply::Nothing)
        } else {
            Ok(TurnKind::JoinWait { id: number })
        }
    }

    /// The thread of that number, where thread `t` may join it.
    fn joined(&self, t: u8, id: i32) -> Option<u8>
        ensures none { result ≡ None → target t id (machine_in A.state A.saved_state self.now).threads ≡ None }
        ensures some { (n : ℕ) → result ≡ Some n → IsJoined t id (machine_in A.state A.saved_state self.now) n }
    {
        match u8::try_from(id) {
            Ok(number) => self.joined_number(t, number),
            Err(_) => None,
        }
    }

    fn joined_number(&self, t: u8, number: u8) -> Option<u8>
        ensures none { result ≡ None → target t (pos number) (machine_in A.state A.saved_state self.now).threads ≡ None }
        ensures some { (n : ℕ) → result ≡ Some n → IsJoined t (pos number) (machine_in A.state A.saved_state self.now) n }
    {
        if number == 0 {
            return None;
        }
        if number == t {
            return None;
        }
        if (number as usize) < self.threads.len() {
            Some(number)
        } else {
            None
        }
    }

    pub(crate) fn output(&mut self, t: u8, byte: u8) -> Result<TurnKind, AllocError>
        requires here { GoesOutside A.is_reached A.thread t (machine_in A.state A.saved_state self.old) (Out byte) }
        ensures turned { IfOk result (λ kind. Turns A.state A.saved_state A.thread t self.old kind self.new) }
        ensures same { OnErr result (machine_in A.state A.saved_state self.new ≡ machine_in A.state A.saved_state self.old) }
        ensures layout { layout_in self.new ≡ layout_in self.old }
    {
        self.ready(t)?;
        self.order.reserve(1)?;
        self.out.reserve(1)?;
        self.order.push_reserved(t);
        self.out.push_reserved(byte);
        self.step(t, Reply::Nothing);
        Ok(TurnKind::Ran)
    }

    pub(crate) fn input(&mut self, t: u8) -> Result<TurnKind, AllocError>
        requires here { GoesOutside A.is_reached A.thread t (machine_in A.state A.saved_state self.old) Inp }
        ensures turned { IfOk result (λ kind. Turns A.state A.saved_state A.thread t self.old kind self.new) }
        ensures same { OnErr result (machine_in A.state A.saved_state self.new ≡ machine_in A.state A.saved_state self.old) }
        ensures layout { layout_in self.new ≡ layout_in self.old }
    {
        let reply = self.input.reply();
        let kind = self.step_in_order(t, reply)?;
        self.input.advance();
        Ok(kind)
    }

    pub(crate) fn finish(&mut self, t: u8) -> Result<TurnKind, AllocError>
        requires here { GoesOutside A.is_reached A.thread t (machine_in A.state A.saved_state self.old) Done }
        ensures turned { IfOk result (λ kind. Turns A.state A.saved_state A.thread t self.old kind self.new) }
        ensures same { OnErr result (machine_in A.state A.saved_state self.new ≡ machine_in A.state A.saved_state self.old) }
        ensures layout { layout_in self.new ≡ layout_in self.old }
    {
        self.ready(t)?;
        self.order.reserve(1)?;
        self.order.push_reserved(t);
        let thread = &mut self.threads[t as usize];
        thread.finish();
        Ok(TurnKind::Ran)
    }
}
