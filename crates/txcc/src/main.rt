//! The program.
#![tactic(auto)]

use std::process::ExitCode;
use std::{env, io};
use tx_host::RealHost;
use txcc_core::txcc;

/// The status where the system does not give the words.
const NO_WORDS: u8 = 7;

/// The status where there is no memory.
const NO_MEMORY: u8 = 8;

fn main(rt: HostRuntime) -> ExitCode {
    let args = match env::args(&rt) {
        Ok(args) => args,
        Err(error) => {
            return ExitCode::from(match error.kind() {
                io::ErrorKind::OutOfMemory => NO_MEMORY,
                _ => NO_WORDS,
            });
        }
    };
    let mut words = Vec::new(rt.alloc());
    for word in args.skip(1) {
        if words.push(word).is_err() {
            return ExitCode::from(NO_MEMORY);
        }
    }
    let out = rt.stdout();
    let err = rt.stderr();
    let mut host = RealHost::new(&rt, &out, &err, rt.alloc());
    let answer = txcc(rt.alloc(), words.as_slice(), &mut host);
    ExitCode::from(answer.status.number())
}
