//! The writes of a run: output, lines, the order file and the record file.

ghost use Rattle.std.specs.Prelude.{◌≡◌, ◌++◌, map, IfOk, OnOk, string_bytes};
ghost use Rattle.std.specs.Option.{option_map};
ghost use Rattle.command_io.specs.Writes.{written_of, to_out, to_err};
ghost use Rattle.tx_code.specs.Views.{image_view};
ghost use Rattle.run_report.specs.RunWrites.{schedule_file, run_writes};

use crate::lines::end_lines;
use command_io::Write;
use schedules::write;
use std::alloc::{AllocError, Global};
use tx_code::Image;
use tx_machine::Ran;
use vm_thread::Here;

// One write more: the text of these entries to the file, where one is named.
fn push_schedule(
    alloc: Global,
    writes: &mut Vec<Write>,
    file: &Option<String>,
    entries: &[u8],
) -> Result<(), AllocError>
    ensures { OnOk result (map written_of writes.new.items ≡ map written_of writes.old.items ++ schedule_file (option_map string_bytes file.now) entries.now) }
{
    let Some(file) = file else {
        return Ok(());
    };
    let name = file.as_str().to_string(alloc)?;
    let bytes = write(alloc, entries)?;
    writes.push(Write::File { name, bytes })?;
    Ok(())
}

/// What is written of a run of the image: its output, its end line and turn line, and the texts of its order and of its
/// picks to the files that are named.
pub fn run_writes(
    alloc: Global,
    image: &Image,
    ran: &Ran<Here>,
    order_file: &Option<String>,
    record_file: &Option<String>,
) -> Result<Vec<Write>, AllocError>
    ensures { IfOk result (λ writes. map written_of writes.items ≡ run_writes (image_view image.now) ran.now (option_map string_bytes order_file.now) (option_map string_bytes record_file.now)) }
{
    let out = ran.out.as_slice().to_vec(alloc)?;
    let lines = end_lines(alloc, image, ran)?;
    let mut writes = vec![in alloc; Write::Out(out), Write::Err(lines)]?;
    push_schedule(alloc, &mut writes, order_file, ran.order.as_slice())?;
    push_schedule(alloc, &mut writes, record_file, ran.picked.as_slice())?;
    Ok(writes)
}
