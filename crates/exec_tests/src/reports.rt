// A run that trapped, as it is written.

use command_io::write_all;
use run_report::run_writes;
use std::alloc::{AllocError, Global};
use tx_code::{Body, Image, ImageFunc, Instr, LineRow};
use tx_events::{End, Trap};
use tx_host::SteadyHost;
use tx_machine::Ran;
use vm_thread::Here;

// `main` of `a.cc`, with line 3 from index 1 on.
fn image_of(alloc: Global) -> Result<Image, AllocError> {
    let plain = Body {
        code: vec![in alloc; Instr::Push(0), Instr::Ret(1)]?,
        rows: Vec::new(alloc),
        lines: vec![in alloc; LineRow { from: 1, line: 3 }]?,
    };
    let func = ImageFunc {
        symbol: b"main()".to_vec(alloc)?,
        ty: b"int()".to_vec(alloc)?,
        frame: 16,
        no_except: false,
        plain,
        safe: None,
        source: Some(b"a.cc".to_vec(alloc)?),
    };
    Ok(Image {
        types: Vec::new(alloc),
        funcs: vec![in alloc; func]?,
        classes: Vec::new(alloc),
        globals: Vec::new(alloc),
        size: 0,
        main: 0,
    })
}

// A run of `main` that trapped at index 1.
fn trapped(alloc: Global) -> Result<Ran<Here>, AllocError> {
    Ok(Ran {
        out: b"A".to_vec(alloc)?,
        end: End::Trapped(Trap::Overflow),
        order: b"\x00\x01\x01".to_vec(alloc)?,
        picked: b"\x00\x00\x01\x01".to_vec(alloc)?,
        ran: 4,
        waited: 0,
        rolled: 0,
        idle: 0,
        place: Some(Here {
            func: 0,
            safe: false,
            index: 1,
        }),
    })
}

/// What is written of the run: the output, the error output, and the order as the file `o`.
pub fn answer(alloc: Global) -> Result<String, AllocError> {
    let order = Some(String::from_str(alloc, "o")?);
    let writes = run_writes(alloc, &image_of(alloc)?, &trapped(alloc)?, &order, &None)?;
    let mut host = SteadyHost::new(alloc, Vec::new(alloc))?;
    if write_all(&mut host, writes.as_slice()).is_err() {
        return format!(in alloc; "memory");
    }
    format!(in alloc;
        "out {} err {} o {}",
        host.out().escape_ascii(),
        host.err().escape_ascii(),
        host.file("o").unwrap_or(b"none").escape_ascii()
    )
}
