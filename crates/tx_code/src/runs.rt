//! Threads of images written out by hand, instruction by instruction. A function here does nothing: its clauses say which
//! events come.
ghost use Rattle.std.specs.Prelude.{◌≡◌, ◌++◌, [], ◌∷◌, pos, negsuc, false, true, Some, None, codes};
ghost use Rattle.tx_events.specs.declared.BlockKind.TheVariants.{NoExcept, Commit, Cancel};
ghost use Rattle.tx_events.specs.declared.Event.TheVariants.{Silent, Load as LoadOf, Store as StoreOf, Out as OutOf, Inp as InpOf, Spawn as SpawnOf, Join as JoinOf, BeginAtomic, EndAtomic, Raise, BeginSync as BeginSyncOf, EndSync as EndSyncOf, Done, Stop};
ghost use Rattle.tx_events.specs.declared.Reply.TheVariants.{Nothing, Loaded, Byte, Id};
ghost use Rattle.tx_events.specs.declared.End.TheVariants.{Exit, Abort as Aborted, Terminate, Trapped};
ghost use Rattle.tx_events.specs.declared.Trap.TheVariants.{Overflow, DivideByZero, ShiftRange, StackOverflow, UnsafeCall, BadCall, BadVirtual};
ghost use Rattle.tx_code.specs.declared.instr.Instr.TheVariants.{Push, Dup, Pop, Swap, Over, FrameAddr, GlobalAddr, FuncAddr, ClassAddr, Load, Store, TLoad, TStore, VLoad, VStore, Bin, Neg, Conv, Jump, JumpZero, Call, TCall, CallIndirect, TCallIndirect, Slot, Ret, Begin, End, BeginSync, EndSync, Out, Inp, Spawn, Join, Abort, NewException, PutException, Throw, Rethrow, GetException, EndHandler, Resume};
ghost use Rattle.tx_code.specs.Examples.{events_of, child_events, hand_image, image, simple, stored, stores, func, body, row, class};

/// The image whose `main` writes a byte and returns 0.
pub fn the_hand_image()
    ensures { events_of hand_image 8 [] ≡ OutOf 65 ∷ Stop (Exit (pos 0)) ∷ [] }
{}

/// Operands, and the addresses of frames, globals, functions and classes.
pub fn operands()
    ensures push { events_of (simple (stored (Push 7 ∷ []))) 24 [] ≡ stores 7 }
    ensures dup { events_of (simple (stored (Push 7 ∷ Dup ∷ Bin 0 9 ∷ []))) 24 [] ≡ stores 14 }
    ensures pop { events_of (simple (stored (Push 7 ∷ Push 8 ∷ Pop ∷ []))) 24 [] ≡ stores 7 }
    ensures swap { events_of (simple (stored (Push 7 ∷ Push 5 ∷ Swap ∷ Bin 1 9 ∷ []))) 24 [] ≡ stores 18446744073709551614 }
    ensures over { events_of (simple (stored (Push 7 ∷ Push 5 ∷ Over ∷ Bin 1 9 ∷ Bin 1 9 ∷ []))) 24 [] ≡ stores 9 }
    ensures frame { events_of (simple (stored (FrameAddr 8 ∷ []))) 24 [] ≡ stores 16777224 }
    ensures global { events_of (simple (stored (GlobalAddr 16 ∷ []))) 24 [] ≡ stores 65552 }
    ensures func { events_of (simple (stored (FuncAddr 3 ∷ []))) 24 [] ≡ stores 1099511627824 }
    ensures class { events_of (simple (stored (ClassAddr 3 ∷ []))) 24 [] ≡ stores 2199023255600 }
{}

/// Loads and stores of each sort: a value read has its kind, and one written has its size.
pub fn accesses()
    ensures load { events_of (simple (stored (GlobalAddr 8 ∷ Load 2 ∷ []))) 24 (Loaded 200 ∷ []) ≡ (LoadOf 65544 1 false ∷ stores 18446744073709551560) }
    ensures store { events_of (simple (GlobalAddr 0 ∷ Push 18446744073709551615 ∷ Store 5 ∷ Abort ∷ [])) 24 [] ≡ (StoreOf 65536 2 65535 false ∷ Stop Aborted ∷ []) }
    ensures truth { events_of (simple (GlobalAddr 0 ∷ Push 2 ∷ Store 0 ∷ Abort ∷ [])) 24 [] ≡ (StoreOf 65536 1 1 false ∷ Stop Aborted ∷ []) }
    ensures transaction { events_of (simple (Begin 0 ∷ GlobalAddr 0 ∷ GlobalAddr 8 ∷ TLoad 6 ∷ TStore 6 ∷ End ∷ Abort ∷ [])) 24 (Nothing ∷ Loaded 4294967295 ∷ []) ≡ (BeginAtomic NoExcept ∷ LoadOf 65544 4 false ∷ StoreOf 65536 4 4294967295 false ∷ EndAtomic ∷ Stop Aborted ∷ []) }
    ensures volatile { events_of (simple (GlobalAddr 0 ∷ GlobalAddr 8 ∷ VLoad 3 ∷ VStore 3 ∷ Abort ∷ [])) 24 (Loaded 5 ∷ []) ≡ (LoadOf 65544 1 true ∷ StoreOf 65536 1 5 true ∷ Stop Aborted ∷ []) }
{}

/// Operators with their traps, negation and conversion.
pub fn arithmetic()
    ensures quotient { events_of (simple (stored (Push 7 ∷ Push 2 ∷ Bin 3 6 ∷ []))) 24 [] ≡ stores 3 }
    ensures shift { events_of (simple (stored (Push 1 ∷ Push 31 ∷ Bin 5 7 ∷ []))) 24 [] ≡ stores 2147483648 }
    ensures less { events_of (simple (stored (Push 1 ∷ Push 2 ∷ Bin 10 6 ∷ []))) 24 [] ≡ stores 1 }
    ensures negation { events_of (simple (stored (Push 1 ∷ Neg 6 ∷ []))) 24 [] ≡ stores 18446744073709551615 }
    ensures conversion { events_of (simple (stored (Push 300 ∷ Conv 6 3 ∷ []))) 24 [] ≡ stores 44 }
    ensures overflow { events_of (simple (Push 2147483647 ∷ Push 1 ∷ Bin 0 6 ∷ [])) 24 [] ≡ (Stop (Trapped Overflow) ∷ []) }
    ensures zero { events_of (simple (Push 1 ∷ Push 0 ∷ Bin 3 6 ∷ [])) 24 [] ≡ (Stop (Trapped DivideByZero) ∷ []) }
    ensures count { events_of (simple (Push 1 ∷ Push 32 ∷ Bin 5 6 ∷ [])) 24 [] ≡ (Stop (Trapped ShiftRange) ∷ []) }
{}

/// Jumps, and the end of the program.
pub fn jumps()
    ensures jump { events_of (simple (Jump 3 ∷ Push 1 ∷ Out ∷ Push 2 ∷ Out ∷ Abort ∷ [])) 24 [] ≡ (OutOf 2 ∷ Stop Aborted ∷ []) }
    ensures taken { events_of (simple (Push 0 ∷ JumpZero 4 ∷ Push 1 ∷ Out ∷ Push 2 ∷ Out ∷ Abort ∷ [])) 24 [] ≡ (OutOf 2 ∷ Stop Aborted ∷ []) }
    ensures passed { events_of (simple (Push 5 ∷ JumpZero 4 ∷ Push 1 ∷ Out ∷ Push 2 ∷ Out ∷ Abort ∷ [])) 24 [] ≡ (OutOf 1 ∷ OutOf 2 ∷ Stop Aborted ∷ []) }
{}

/// Calls of plain and safe bodies: the first word comes to the top, and the frame lies behind the caller's.
pub fn calls()
    ensures words { events_of (image [] (stored (Push 10 ∷ Push 3 ∷ Call 1 2 ∷ [])) [] (func (codes "int(int,int)") 16 false (body (Bin 1 6 ∷ Ret 1 ∷ []) []) None ∷ []) []) 24 [] ≡ stores 18446744073709551609 }
    ensures frame { events_of (image [] (stored (Call 1 0 ∷ [])) [] (func (codes "int()") 16 false (body (FrameAddr 0 ∷ Ret 1 ∷ []) []) None ∷ []) []) 24 [] ≡ stores 16777248 }
    ensures nothing { events_of (image [] (stored (Push 4 ∷ Call 1 0 ∷ [])) [] (func (codes "void()") 16 false (body (Ret 0 ∷ []) []) None ∷ []) []) 24 [] ≡ stores 4 }
    ensures safe { events_of (image [] (GlobalAddr 0 ∷ Begin 1 ∷ TCall 1 0 ∷ TStore 9 ∷ End ∷ Abort ∷ []) [] (func (codes "int()") 16 false (body (Push 7 ∷ Ret 1 ∷ []) []) (Some (body (Push 8 ∷ Ret 1 ∷ []) [])) ∷ []) []) 24 [] ≡ (BeginAtomic Commit ∷ StoreOf 65536 8 8 false ∷ EndAtomic ∷ Stop Aborted ∷ []) }
    ensures fits { events_of (image [] (stored (Call 1 0 ∷ [])) [] (func (codes "int()") 65504 false (body (Push 6 ∷ Ret 1 ∷ []) []) None ∷ []) []) 24 [] ≡ stores 6 }
    ensures overflow { events_of (image [] (stored (Call 1 0 ∷ [])) [] (func (codes "int()") 65520 false (body (Push 6 ∷ Ret 1 ∷ []) []) None ∷ []) []) 24 [] ≡ (Stop (Trapped StackOverflow) ∷ []) }
{}

/// Calls by an address and by a slot, with what they trap at.
pub fn indirect_calls()
    ensures address { events_of (image (codes "int()" ∷ []) (stored (FuncAddr 1 ∷ CallIndirect 0 0 ∷ [])) [] (func (codes "int()") 16 false (body (Push 7 ∷ Ret 1 ∷ []) []) None ∷ []) []) 24 [] ≡ stores 7 }
    ensures words { events_of (image (codes "int(int,int)" ∷ []) (stored (FuncAddr 1 ∷ Push 10 ∷ Push 3 ∷ CallIndirect 0 2 ∷ [])) [] (func (codes "int(int,int)") 16 false (body (Bin 1 6 ∷ Ret 1 ∷ []) []) None ∷ []) []) 24 [] ≡ stores 18446744073709551609 }
    ensures safety_aside { events_of (image (codes "int() transaction_safe" ∷ []) (stored (FuncAddr 1 ∷ CallIndirect 0 0 ∷ [])) [] (func (codes "int()") 16 false (body (Push 7 ∷ Ret 1 ∷ []) []) None ∷ []) []) 24 [] ≡ stores 7 }
    ensures no_function { events_of (image (codes "int()" ∷ []) (stored (Push 5 ∷ CallIndirect 0 0 ∷ [])) [] (func (codes "int()") 16 false (body (Push 7 ∷ Ret 1 ∷ []) []) None ∷ []) []) 24 [] ≡ (Stop (Trapped BadCall) ∷ []) }
    ensures between { events_of (image (codes "int()" ∷ []) (stored (Push 1099511627800 ∷ CallIndirect 0 0 ∷ [])) [] (func (codes "int()") 16 false (body (Push 7 ∷ Ret 1 ∷ []) []) None ∷ []) []) 24 [] ≡ (Stop (Trapped BadCall) ∷ []) }
    ensures other_type { events_of (image (codes "int(int)" ∷ []) (stored (FuncAddr 1 ∷ Push 1 ∷ CallIndirect 0 1 ∷ [])) [] (func (codes "int()") 16 false (body (Push 7 ∷ Ret 1 ∷ []) []) None ∷ []) []) 24 [] ≡ (Stop (Trapped BadCall) ∷ []) }
    ensures transaction { events_of (image (codes "int()" ∷ []) (GlobalAddr 0 ∷ Begin 1 ∷ FuncAddr 1 ∷ TCallIndirect 0 0 ∷ TStore 9 ∷ End ∷ Abort ∷ []) [] (func (codes "int()") 16 false (body (Push 7 ∷ Ret 1 ∷ []) []) (Some (body (Push 8 ∷ Ret 1 ∷ []) [])) ∷ []) []) 24 [] ≡ (BeginAtomic Commit ∷ StoreOf 65536 8 8 false ∷ EndAtomic ∷ Stop Aborted ∷ []) }
    ensures no_safe_body { events_of (image (codes "int()" ∷ []) (Begin 1 ∷ FuncAddr 1 ∷ TCallIndirect 0 0 ∷ Abort ∷ []) [] (func (codes "int()") 16 false (body (Push 7 ∷ Ret 1 ∷ []) []) None ∷ []) []) 24 [] ≡ (BeginAtomic Commit ∷ Stop (Trapped UnsafeCall) ∷ []) }
    ensures no_safe_body_below { events_of (image (codes "int()" ∷ []) (Begin 1 ∷ TCall 1 0 ∷ Abort ∷ []) [] (func (codes "int()") 16 false (body (Abort ∷ []) []) (Some (body (FuncAddr 2 ∷ TCallIndirect 0 0 ∷ Ret 1 ∷ []) [])) ∷ func (codes "int()") 16 false (body (Push 7 ∷ Ret 1 ∷ []) []) None ∷ []) []) 24 [] ≡ (BeginAtomic Commit ∷ Stop (Trapped UnsafeCall) ∷ []) }
{}

/// The function in a slot of a class that is the named one or derived from it.
pub fn slots()
    ensures derived { events_of (image [] (stored (ClassAddr 1 ∷ Slot 0 0 ∷ [])) [] [] (class None (Some 1 ∷ None ∷ []) ∷ class (Some 0) (Some 2 ∷ None ∷ []) ∷ [])) 24 [] ≡ stores 1099511627808 }
    ensures itself { events_of (image [] (stored (ClassAddr 0 ∷ Slot 0 0 ∷ [])) [] [] (class None (Some 1 ∷ None ∷ []) ∷ class (Some 0) (Some 2 ∷ None ∷ []) ∷ [])) 24 [] ≡ stores 1099511627792 }
    ensures pure { events_of (image [] (stored (ClassAddr 1 ∷ Slot 0 1 ∷ [])) [] [] (class None (Some 1 ∷ None ∷ []) ∷ class (Some 0) (Some 2 ∷ None ∷ []) ∷ [])) 24 [] ≡ (Stop (Trapped BadVirtual) ∷ []) }
    ensures base { events_of (image [] (stored (ClassAddr 0 ∷ Slot 1 0 ∷ [])) [] [] (class None (Some 1 ∷ None ∷ []) ∷ class (Some 0) (Some 2 ∷ None ∷ []) ∷ [])) 24 [] ≡ (Stop (Trapped BadVirtual) ∷ []) }
    ensures no_class { events_of (image [] (stored (Push 3 ∷ Slot 0 0 ∷ [])) [] [] (class None (Some 1 ∷ None ∷ []) ∷ class (Some 0) (Some 2 ∷ None ∷ []) ∷ [])) 24 [] ≡ (Stop (Trapped BadVirtual) ∷ []) }
{}

/// Output, input, threads that are started and joined, and synchronized blocks.
pub fn threads_and_bytes()
    ensures out { events_of (simple (stored (Push 321 ∷ Out ∷ []))) 24 [] ≡ (OutOf 65 ∷ stores 65) }
    ensures inp { events_of (simple (stored (Inp ∷ []))) 24 (Byte (negsuc 0) ∷ []) ≡ (InpOf ∷ stores 18446744073709551615) }
    ensures spawn { events_of (image [] (stored (FuncAddr 1 ∷ Push 18446744073709551615 ∷ Spawn ∷ [])) [] (func (codes "void(long)") 16 false (body (Pop ∷ Ret 0 ∷ []) []) None ∷ []) []) 24 (Id (pos 1) ∷ []) ≡ (SpawnOf 1 (negsuc 0) ∷ stores 1) }
    ensures no_start { events_of (image [] (stored (FuncAddr 1 ∷ Push 1 ∷ Spawn ∷ [])) [] (func (codes "int()") 16 false (body (Push 7 ∷ Ret 1 ∷ []) []) None ∷ []) []) 24 [] ≡ (Stop (Trapped BadCall) ∷ []) }
    ensures join { events_of (simple (Push 2 ∷ Join ∷ Abort ∷ [])) 24 [] ≡ (JoinOf (pos 2) ∷ Stop Aborted ∷ []) }
    ensures lock { events_of (simple (BeginSync ∷ EndSync ∷ Abort ∷ [])) 24 [] ≡ (BeginSyncOf ∷ EndSyncOf ∷ Stop Aborted ∷ []) }
{}

/// Exceptions as a type and 64 bytes, and the handlers that rows name.
pub fn handlers()
    ensures bytes { events_of (image (codes "int" ∷ codes "long" ∷ []) (NewException 0 ∷ Push 258 ∷ PutException 4 5 ∷ Throw ∷ GetException 5 3 ∷ EndHandler ∷ Out ∷ Abort ∷ []) (row 3 4 4 1 0 0 ∷ []) [] []) 24 [] ≡ (OutOf 1 ∷ Stop Aborted ∷ []) }
    ensures number { events_of (image (codes "int" ∷ codes "long" ∷ []) (GlobalAddr 0 ∷ NewException 0 ∷ Push 258 ∷ PutException 4 5 ∷ Throw ∷ GetException 4 6 ∷ EndHandler ∷ Store 9 ∷ Abort ∷ []) (row 4 5 5 1 0 1 ∷ []) [] []) 24 [] ≡ stores 258 }
    ensures other_type { events_of (image (codes "int" ∷ codes "long" ∷ []) (NewException 0 ∷ Push 258 ∷ PutException 4 5 ∷ Throw ∷ Abort ∷ []) (row 3 4 4 1 1 0 ∷ []) [] []) 24 [] ≡ (Stop Terminate ∷ []) }
    ensures first_row { events_of (image (codes "int" ∷ codes "long" ∷ []) (NewException 0 ∷ Push 258 ∷ PutException 4 5 ∷ Throw ∷ Push 1 ∷ Out ∷ Abort ∷ Push 2 ∷ Out ∷ Abort ∷ []) (row 3 4 4 1 1 0 ∷ row 3 4 7 2 0 0 ∷ row 3 4 4 1 0 0 ∷ []) [] []) 24 [] ≡ (OutOf 2 ∷ Stop Aborted ∷ []) }
    ensures cut { events_of (image (codes "int" ∷ codes "long" ∷ []) (Push 7 ∷ Push 8 ∷ NewException 0 ∷ Throw ∷ EndHandler ∷ Out ∷ Abort ∷ []) (row 3 4 4 2 0 1 ∷ []) [] []) 24 [] ≡ (OutOf 7 ∷ Stop Aborted ∷ []) }
    ensures cleanup { events_of (image (codes "int" ∷ codes "long" ∷ []) (NewException 0 ∷ Throw ∷ Push 1 ∷ Out ∷ Pop ∷ Resume ∷ Push 2 ∷ Out ∷ Abort ∷ []) (row 1 2 2 0 0 0 ∷ row 5 6 6 2 0 0 ∷ []) [] []) 24 [] ≡ (OutOf 1 ∷ OutOf 2 ∷ Stop Aborted ∷ []) }
    ensures rethrown { events_of (image (codes "int" ∷ codes "long" ∷ []) (NewException 1 ∷ Throw ∷ Rethrow ∷ Abort ∷ Push 2 ∷ Out ∷ Abort ∷ []) (row 1 2 2 2 0 0 ∷ row 2 3 3 1 0 0 ∷ row 2 3 4 1 1 0 ∷ []) [] []) 24 [] ≡ (OutOf 2 ∷ Stop Aborted ∷ []) }
    ensures none_to_rethrow { events_of (image (codes "int" ∷ codes "long" ∷ []) (Rethrow ∷ []) (row 0 1 0 2 0 0 ∷ []) [] []) 24 [] ≡ (Stop Terminate ∷ []) }
    ensures in_a_handler { events_of (image (codes "int" ∷ codes "long" ∷ []) (NewException 0 ∷ Throw ∷ NewException 1 ∷ Push 9 ∷ PutException 0 3 ∷ Throw ∷ GetException 0 3 ∷ Out ∷ EndHandler ∷ EndHandler ∷ Abort ∷ []) (row 1 2 2 2 0 0 ∷ row 5 6 6 1 1 0 ∷ []) [] []) 24 [] ≡ (OutOf 9 ∷ Stop Aborted ∷ []) }
    ensures in_another_frame { events_of (image (codes "int" ∷ codes "long" ∷ []) (NewException 0 ∷ Push 5 ∷ PutException 0 3 ∷ Throw ∷ Call 1 0 ∷ Abort ∷ []) (row 3 4 4 2 0 0 ∷ []) (func (codes "void()") 16 false (body (GetException 0 3 ∷ Out ∷ Ret 0 ∷ []) []) None ∷ []) []) 24 [] ≡ (OutOf 5 ∷ Stop Aborted ∷ []) }
{}

/// What an exception leaves: frames, blocks and the thread.
pub fn unwinding()
    ensures two_frames { events_of (image (codes "int" ∷ codes "long" ∷ []) (Call 1 0 ∷ EndHandler ∷ Push 2 ∷ Out ∷ Abort ∷ []) (row 0 1 1 1 0 0 ∷ []) (func (codes "void()") 16 false (body (Call 2 0 ∷ Ret 0 ∷ []) []) None ∷ func (codes "void()") 16 false (body (NewException 0 ∷ Throw ∷ []) []) None ∷ []) []) 24 [] ≡ (OutOf 2 ∷ Stop Aborted ∷ []) }
    ensures no_except { events_of (image (codes "int" ∷ codes "long" ∷ []) (Call 1 0 ∷ EndHandler ∷ Push 2 ∷ Out ∷ Abort ∷ []) (row 0 1 1 1 0 0 ∷ []) (func (codes "void()") 16 true (body (Call 2 0 ∷ Ret 0 ∷ []) []) None ∷ func (codes "void()") 16 false (body (NewException 0 ∷ Throw ∷ []) []) None ∷ []) []) 24 [] ≡ (Stop Terminate ∷ []) }
    ensures caught_before_no_except { events_of (image (codes "int" ∷ codes "long" ∷ []) (Call 1 0 ∷ Abort ∷ []) [] (func (codes "void()") 16 true (body (Call 2 0 ∷ EndHandler ∷ Push 2 ∷ Out ∷ Ret 0 ∷ []) (row 0 1 1 2 0 0 ∷ [])) None ∷ func (codes "void()") 16 false (body (NewException 0 ∷ Throw ∷ []) []) None ∷ []) []) 24 [] ≡ (OutOf 2 ∷ Stop Aborted ∷ []) }
    ensures cancel { events_of (image (codes "std::tx_exception<int>" ∷ []) (Begin 2 ∷ NewException 0 ∷ Throw ∷ Resume ∷ []) (row 1 3 3 5 0 0 ∷ []) [] []) 24 [] ≡ (BeginAtomic Cancel ∷ Raise Cancel true ∷ Stop Terminate ∷ []) }
    ensures cancel_not { events_of (image (codes "int" ∷ []) (Begin 2 ∷ NewException 0 ∷ Throw ∷ Resume ∷ []) (row 1 3 3 5 0 0 ∷ []) [] []) 24 [] ≡ (BeginAtomic Cancel ∷ Raise Cancel false ∷ Stop Terminate ∷ []) }
    ensures commit { events_of (image (codes "int" ∷ []) (Begin 1 ∷ NewException 0 ∷ Throw ∷ Resume ∷ []) (row 1 3 3 4 0 0 ∷ []) [] []) 24 [] ≡ (BeginAtomic Commit ∷ Raise Commit false ∷ Stop Terminate ∷ []) }
    ensures nothing_out { events_of (image (codes "int" ∷ []) (Begin 0 ∷ NewException 0 ∷ Throw ∷ Resume ∷ []) (row 1 3 3 3 0 0 ∷ []) [] []) 24 [] ≡ (BeginAtomic NoExcept ∷ Raise NoExcept false ∷ Stop Terminate ∷ []) }
    ensures lock { events_of (image (codes "int" ∷ []) (BeginSync ∷ NewException 0 ∷ Throw ∷ Resume ∷ []) (row 1 3 3 6 0 0 ∷ []) [] []) 24 [] ≡ (BeginSyncOf ∷ EndSyncOf ∷ Stop Terminate ∷ []) }
    ensures past_a_block { events_of (image (codes "int" ∷ []) (Begin 1 ∷ NewException 0 ∷ Throw ∷ Resume ∷ EndHandler ∷ Push 2 ∷ Out ∷ Abort ∷ []) (row 1 3 3 4 0 0 ∷ row 3 4 4 2 0 0 ∷ []) [] []) 24 [] ≡ (BeginAtomic Commit ∷ Raise Commit false ∷ OutOf 2 ∷ Stop Aborted ∷ []) }
{}

/// How the threads of a program end.
pub fn ends()
    ensures status { events_of (simple (Push 4294967295 ∷ Ret 1 ∷ [])) 24 [] ≡ (Stop (Exit (negsuc 0)) ∷ []) }
    ensures lost { events_of (simple (Pop ∷ [])) 24 [] ≡ (Silent ∷ []) }
    ensures child { child_events (image [] [] [] (func (codes "void(long)") 16 false (body (GlobalAddr 0 ∷ Swap ∷ Store 8 ∷ Ret 0 ∷ []) []) None ∷ []) []) 1 (negsuc 1) 8 ≡ StoreOf 65536 8 18446744073709551614 false ∷ Done ∷ [] }
{}
