//! Worlds worked out by hand, which the definitions have to lead to. A function here does nothing: its clauses say
//! what a small list of events comes to in an order, and where a thread waits.
ghost use Rattle.std.specs.Prelude.{◌≡◌, [], ◌∷◌, pos, negsuc, false, true, Some, None};
ghost use Rattle.tx_events.specs.declared.End.TheVariants.{Exit, Abort, Trapped};
ghost use Rattle.tx_events.specs.declared.Trap.TheVariants.{BadAddress, TooManyThreads, BadJoin};
ghost use Rattle.tx_events.specs.declared.Event.TheVariants.{Load, Join, Spawn};
ghost use Rattle.tx_events.specs.Examples.{LeadsTo, Waits, no_change, committing, cancelling, aborting, failing, sharing, locking, talking, Hears, asking, asking_inside, cells, first_bytes};
ghost use Rattle.tx_events.specs.Memory.{with_cells, no_bytes};
ghost use Rattle.tx_events.specs.declared.Reply.TheVariants.{Nothing, Loaded, Byte, Id};

/// The first bytes of the globals are those of their parts, and zero elsewhere.
pub fn first_globals()
    ensures { first_bytes (with_cells no_bytes cells) ≡ 2 ∷ 1 ∷ 0 ∷ 0 ∷ 6 ∷ 5 ∷ 4 ∷ 3 ∷ [] }
{}

/// A block commits as a whole, with a synchronized block in it.
pub fn a_block_commits()
    ensures { LeadsTo committing [] (0 ∷ 0 ∷ 0 ∷ []) (2 ∷ 1 ∷ 0 ∷ 0 ∷ 6 ∷ 5 ∷ 4 ∷ 3 ∷ []) (65 ∷ []) [] (Some (Exit (pos 3))) }
{}

/// A block that cancels gives memory its bytes back, and the block around it goes on and commits by an exception.
pub fn a_block_cancels_inside_another()
    ensures { LeadsTo cancelling [] (0 ∷ 0 ∷ []) (1 ∷ 0 ∷ 4 ∷ 5 ∷ 0 ∷ 0 ∷ 0 ∷ 0 ∷ []) [] [] None }
{}

/// An exception that may not leave a block ends the program.
pub fn a_block_aborts()
    ensures noexcept { LeadsTo aborting [] (0 ∷ []) no_change [] [] (Some Abort) }
    ensures cancel { LeadsTo failing [] (0 ∷ []) no_change [] [] (Some Abort) }
{}

/// A synchronized block is open while another thread steps. That thread's blocks begin once it has ended, and a join
/// waits for the thread's end.
pub fn a_synchronized_block_beside_a_thread()
    ensures leads { LeadsTo sharing [] (0 ∷ 0 ∷ 0 ∷ 0 ∷ 1 ∷ 1 ∷ 1 ∷ 1 ∷ 0 ∷ 0 ∷ []) (1 ∷ 2 ∷ 3 ∷ 4 ∷ 5 ∷ 6 ∷ 0 ∷ 0 ∷ []) [] [] (Some (Exit (pos 0))) }
    ensures unstarted { Waits sharing [] 1 }
    ensures block { Waits sharing (0 ∷ 0 ∷ []) 1 }
    ensures lock { Waits locking (0 ∷ 0 ∷ []) 1 }
    ensures nested { Waits locking (0 ∷ 0 ∷ 0 ∷ 0 ∷ []) 1 }
    ensures join { Waits sharing (0 ∷ 0 ∷ 0 ∷ 0 ∷ 1 ∷ []) 0 }
    ensures ended { Waits sharing (0 ∷ 0 ∷ 0 ∷ 0 ∷ 1 ∷ 1 ∷ 1 ∷ 1 ∷ []) 1 }
{}

/// A join of 0, of a negative number, of the thread itself or of a thread that was not started ends the program.
pub fn joins_of_bad_numbers()
    ensures first { LeadsTo (Join (pos 0) ∷ []) [] (0 ∷ []) no_change [] [] (Some (Trapped BadJoin)) }
    ensures negative { LeadsTo (Join (negsuc 0) ∷ []) [] (0 ∷ []) no_change [] [] (Some (Trapped BadJoin)) }
    ensures unstarted { LeadsTo (Join (pos 1) ∷ []) [] (0 ∷ []) no_change [] [] (Some (Trapped BadJoin)) }
    ensures own { LeadsTo (Spawn 1 (pos 0) ∷ Join (pos 1) ∷ []) [] (0 ∷ 1 ∷ []) no_change [] [] (Some (Trapped BadJoin)) }
{}

/// An access that is unmapped or misaligned, and a thread too many, end the program.
pub fn traps_of_accesses_and_threads()
    ensures below { LeadsTo (Load 65535 1 true ∷ []) [] (0 ∷ []) no_change [] [] (Some (Trapped BadAddress)) }
    ensures above { LeadsTo (Load 65552 1 true ∷ []) [] (0 ∷ []) no_change [] [] (Some (Trapped BadAddress)) }
    ensures misaligned { LeadsTo (Load 65540 8 true ∷ []) [] (0 ∷ []) no_change [] [] (Some (Trapped BadAddress)) }
    ensures stack { LeadsTo (Load 16973816 8 true ∷ []) [] (0 ∷ []) no_change [] [] None }
    ensures between { LeadsTo (Load 16842752 1 true ∷ []) [] (0 ∷ []) no_change [] [] (Some (Trapped BadAddress)) }
    ensures beyond { LeadsTo (Load 17039360 1 true ∷ []) [] (0 ∷ []) no_change [] [] (Some (Trapped BadAddress)) }
    ensures many { LeadsTo (Spawn 0 (pos 0) ∷ []) [] (0 ∷ 1 ∷ []) no_change [] [] (Some (Trapped TooManyThreads)) }
{}

/// Output goes out and input comes in, byte by byte in order, and the input's end stays one.
pub fn output_and_input_in_order()
    ensures { LeadsTo talking (7 ∷ 9 ∷ []) (0 ∷ 0 ∷ 0 ∷ 0 ∷ 0 ∷ 0 ∷ []) no_change (72 ∷ 73 ∷ 74 ∷ []) [] None }
{}

/// What a thread is answered: bytes of memory with the least significant first, bytes of input and then -1, and the
/// number of the thread that it starts.
pub fn replies()
    ensures outside { Hears asking (7 ∷ []) (0 ∷ 0 ∷ 0 ∷ 0 ∷ 0 ∷ 0 ∷ 0 ∷ []) (Nothing ∷ Loaded 3 ∷ Loaded 772 ∷ Loaded 16909060 ∷ Byte (pos 7) ∷ Byte (negsuc 0) ∷ Id (pos 1) ∷ []) }
    ensures inside { Hears asking_inside [] (0 ∷ []) (Nothing ∷ Nothing ∷ Loaded 72623859706101760 ∷ Nothing ∷ Nothing ∷ Nothing ∷ Loaded 16909060 ∷ Nothing ∷ []) }
{}
