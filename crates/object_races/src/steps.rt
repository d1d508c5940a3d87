//! Objects are linked, the image is verified, and it is run.

ghost use Rattle.std.specs.Prelude.{◌≡◌, map, IfOk, true, nat_lt};
ghost use Rattle.std.specs.List.{All, list_all};
ghost use Rattle.command_io.specs.Writes.{written_of};
ghost use Rattle.exec_command.specs.Exec.{CanRun};
ghost use Rattle.tx_code.specs.Objects.{object_view};
ghost use Rattle.tx_code.specs.Views.{image_view};
ghost use Rattle.tx_code.specs.WellFormed.{IsObject};
ghost use Rattle.tx_events.specs.declared.TheConstants.{THREAD_LIMIT};
ghost use Rattle.object_races.specs.ObjectRaces.{DecidesObjects, RunsWithRaces};

use crate::runs::run;
use code_verify::verify;
use exec_command::refusals::bad_link;
use std::alloc::{AllocError, Global};
use tx_answers::Decision;
use tx_code::{Image, Object};
use tx_linker::link;
use tx_words::RunOptions;

// The image is verified, and run. Code that is not sound would be a fault of the compiler, none of the sources: it counts as want of memory.
fn with_image(
    alloc: Global,
    options: &RunOptions,
    file: &str,
    image: Image,
    input: Vec<u8>,
    entries: &[u8],
) -> Result<Decision, AllocError>
    requires options { CanRun options.now }
    requires threads { list_all (λ t. nat_lt t THREAD_LIMIT) entries.now ≡ true }
    ensures { IfOk result (λ d. RunsWithRaces options.now file.now (image_view image) input.items entries.now d.answer (map written_of d.writes.items)) }
{
    match verify(alloc, image) {
        Ok(good) => run(alloc, options, file, good.image(), input, entries),
        Err(_) => Err(AllocError),
    }
}

/// What is decided on objects: they are linked, the image is verified and run, and the races of the run are written to this
/// file as JSON.
pub fn with_objects(
    alloc: Global,
    options: &RunOptions,
    file: &str,
    objects: &[Object],
    input: Vec<u8>,
    entries: &[u8],
) -> Result<Decision, AllocError>
    requires objects { All (λ o. IsObject (object_view o)) objects.now }
    requires options { CanRun options.now }
    requires threads { list_all (λ t. nat_lt t THREAD_LIMIT) entries.now ≡ true }
    ensures { IfOk result (λ d. DecidesObjects options.now file.now (map object_view objects.now) input.items entries.now d.answer (map written_of d.writes.items)) }
{
    match link(alloc, objects) {
        Ok(image) => with_image(alloc, options, file, image, input, entries),
        Err(fault) => bad_link(alloc, &fault),
    }
}
