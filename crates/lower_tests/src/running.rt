//! Programs that are compiled and run.
ghost use Rattle.std.specs.Prelude.{◌<◌};
ghost use Rattle.cpp_tree.specs.tx_events.declared.TheConstants.{THREAD_LIMIT};

use crate::programs::{LOOP, ONE_BYTE, Row, THROWS, program};
use choosers::named::{older, round};
use choosers::picker::Picker;
use choosers::policy::{OlderRule, Policy};
use choosers::{Clash, Seen};
use clone_gen::generate;
use code_verify::{GoodImage, verify};
use cpp_tree::below::{End, THREAD_LIMIT};
use std::alloc::Global;
use std::test::Fail;
use tx_linker::link;
use tx_machine::Ran;
use tx_machine::image::run;
use vm_thread::Here;

/// The picker `round:1`, of as many threads as there may be.
fn each_in_turn(seen: &Seen) -> u8
    ensures { result < THREAD_LIMIT }
{
    if seen.started == 0 {
        return 0;
    }
    if seen.started > THREAD_LIMIT {
        return 0;
    }
    round(1, seen)
}

/// The image of the program with these nodes.
fn image(alloc: Global, rows: &[Row]) -> Result<GoodImage, Fail> {
    let program = program(alloc, rows)?;
    let object = generate(alloc, &program, 0, &[false], b"a.cc", &[0])?;
    let image = link(alloc, &[object])?;
    Ok(verify(alloc, image)?)
}

/// What the program with these nodes comes to.
fn ran(alloc: Global, rows: &[Row]) -> Result<Ran<Here>, Fail> {
    let good = image(alloc, rows)?;
    let policy: Policy<OlderRule, _> = Policy::new(|c: &Clash| older(c));
    let mut picker = Picker::new(|s: &Seen| each_in_turn(s), THREAD_LIMIT);
    Ok(run(
        alloc,
        good.image(),
        Vec::new(alloc),
        &mut picker,
        &policy,
        1000,
    )?)
}

/// Whether the program with these nodes writes this and ends with that status.
fn comes_to(alloc: Global, rows: &[Row], out: &[u8], status: i32) -> Result<bool, Fail> {
    let ran = ran(alloc, rows)?;
    Ok(ran.out.as_slice() == out && ran.end == End::Exit(status))
}

#[test]
fn typed_programs_run(rt: HostRuntime) -> Result<(), Fail> {
    let alloc = rt.alloc();
    assert!(rt; comes_to(alloc, &ONE_BYTE, b"A", 3)?);
    assert!(rt; comes_to(alloc, &LOOP, b"abc", 3)?);
    assert!(rt; comes_to(alloc, &THROWS, b"7", 0)?);
    Ok(())
}
