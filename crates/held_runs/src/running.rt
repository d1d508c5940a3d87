//! Compiled objects are linked and run, and the run is held against the source.

ghost use Rattle.std.specs.Prelude.{◌≡◌, map, IfOk, true, nat_lt};
ghost use Rattle.std.specs.List.{All, list_all};
ghost use Rattle.command_io.specs.Writes.{written_of};
ghost use Rattle.cpp_tree.specs.tx_events.declared.TheConstants.{THREAD_LIMIT};
ghost use Rattle.exec_command.specs.Exec.{CanRun};
ghost use Rattle.image_checks.specs.Shown.{IsShown};
ghost use Rattle.linked_images.specs.LinkedImages.{IsLinked};
ghost use Rattle.tx_code.specs.Linked.{ImageOf};
ghost use Rattle.tx_code.specs.Images.{IsImage};
ghost use Rattle.tx_code.specs.Objects.{object_view};
ghost use Rattle.tx_code.specs.Sound.{Sound};
ghost use Rattle.tx_code.specs.Views.{image_view};
ghost use Rattle.tx_code.specs.WellFormed.{IsObject};
ghost use Rattle.held_runs.specs.HeldRuns.{IsOfObjects, LinkToCode, IsHeld, RunsHeld, RunsHeldImage};

use bounded_runs::is_run_of;
use bounded_runs::laws::linked_images_keep_the_turn_bound;
use code_verify::verify;
use cpp_tree::Program;
use exec_command::refusals::bad_link;
use exec_command::steps::with_compiled_image;
use image_checks::is_code_of_program;
use link_faults::laws::one_image;
use src_bind::Choices;
use std::alloc::{AllocError, Global};
use tx_answers::{Answer, Decision};
use tx_code::laws::an_image_is_whole;
use tx_code::{Image, Object};
use tx_linker::link;
use tx_words::RunOptions;

// About so many turns are replayed in the time in which an instruction is checked.
const TURNS_EACH: usize = 500;

// The number of instructions of all bodies of an object.
fn instructions(object: &Object) -> usize {
    let mut count: usize = 0;
    for func in &object.funcs {
        if let Some(body) = &func.plain {
            count = count.saturating_add(body.code.len());
        }
        if let Some(body) = &func.safe {
            count = count.saturating_add(body.code.len());
        }
    }
    count
}

// Whether a run took so many turns that the check of its code is likely to be done before its replay.
fn is_long(answer: &Answer, objects: &[Object]) -> bool {
    let Some(ran) = &answer.ran else {
        return false;
    };
    let mut count: usize = 0;
    for object in objects {
        count = count.saturating_add(instructions(object));
    }
    count.saturating_mul(TURNS_EACH) <= ran.picked.len()
}

/// Whether the image is shown to be the code of the program that these choices link. A no shows nothing: so images are answered of which the check says no, and
/// those on which it gives up.
pub fn is_shown(alloc: Global, image: &Image, program: &Program, choices: &Choices) -> bool
    ensures linked { result ≡ true → IsLinked (record { program = program.now; choices = choices.now }) (image_view image.now) }
    ensures shown { result ≡ true → IsShown (record { program = program.now; choices = choices.now }) (image_view image.now) }
{
    match is_code_of_program(alloc, image, program, choices) {
        Ok(shown) => shown,
        Err(_) => false,
    }
}

// Whether an image is sound, and shown to be the code of the program.
fn is_sound_code(alloc: Global, image: Image, program: &Program, choices: &Choices) -> bool
    ensures whole { IsImage (image_view image) }
    ensures sound { result ≡ true → Sound (image_view image) }
    ensures shown { result ≡ true → IsShown (record { program = program.now; choices = choices.now }) (image_view image) }
{
    an_image_is_whole(&image);
    match verify(alloc, image) {
        Ok(good) => is_shown(alloc, good.image(), program, choices),
        Err(_) => false,
    }
}

// Whether the objects link to a sound image that is shown to be the code of the program. It is not asked where the replay is likely to be done before.
fn is_checked(
    alloc: Global,
    answer: &Answer,
    program: &Program,
    choices: &Choices,
    objects: &[Object],
) -> bool
    requires objects { All (λ o. IsObject (object_view o)) objects.now }
    ensures { result ≡ true → LinkToCode (record { program = program.now; choices = choices.now }) (map object_view objects.now) }
{
    if !is_long(answer, objects) {
        return false;
    }
    match link(alloc, objects) {
        Ok(image) => is_sound_code(alloc, image, program, choices),
        Err(_) => false,
    }
}

// What was decided, where the order of what was run replays on the source, within the turn bound. No other run was ever seen; one would count as want of memory,
// so that nothing is written of it.
fn replayed(
    alloc: Global,
    program: &Program,
    choices: &Choices,
    input: &[u8],
    decision: Decision,
) -> Result<Decision, AllocError>
    ensures { IfOk result (IsHeld (record { program = program.now; choices = choices.now }) input.now decision) }
{
    if let Some(ran) = &decision.answer.ran {
        if !is_run_of(alloc, program, choices, input, ran)? {
            return Err(AllocError);
        }
    }
    Ok(decision)
}

/// What was decided on objects that a program was compiled to, where what was run is a run of the program's source, linked by these choices, in the order that is
/// answered, and keeps its turn bound. The image is checked or the run is replayed, whichever is likely to be done first.
pub fn held_against_source(
    alloc: Global,
    program: &Program,
    choices: &Choices,
    objects: &[Object],
    input: &[u8],
    decision: Decision,
) -> Result<Decision, AllocError>
    requires objects { All (λ o. IsObject (object_view o)) objects.now }
    requires run { IsOfObjects (map object_view objects.now) input.now decision.answer }
    ensures { IfOk result (IsHeld (record { program = program.now; choices = choices.now }) input.now decision) }
{
    if !is_checked(alloc, &decision.answer, program, choices, objects) {
        return replayed(alloc, program, choices, input, decision);
    }
    one_image();
    linked_images_keep_the_turn_bound();
    Ok(decision)
}

// The image that the objects link to is run.
fn run_image(
    alloc: Global,
    options: &RunOptions,
    program: &Program,
    choices: &Choices,
    objects: &[Object],
    image: Image,
    input: Vec<u8>,
    entries: &[u8],
) -> Result<Decision, AllocError>
    requires objects { All (λ o. IsObject (object_view o)) objects.now }
    requires image { ImageOf (map object_view objects.now) (image_view image) }
    requires options { CanRun options.now }
    requires threads { list_all (λ t. nat_lt t THREAD_LIMIT) entries.now ≡ true }
    ensures { IfOk result (λ d. RunsHeldImage options.now (record { program = program.now; choices = choices.now }) (image_view image) input.items entries.now d.answer (map written_of d.writes.items)) }
{
    let given = Vec::from_slice(alloc, input.as_slice())?;
    let decision = with_compiled_image(alloc, options, image, given, entries)?;
    held_against_source(alloc, program, choices, objects, input.as_slice(), decision)
}

/// What is decided on objects that a program was compiled to: they are linked, the image is verified, and it is run. No refusal comes but that they can't be
/// linked, and what was run is a run of the program's source, linked by these choices, in the order that is answered.
pub fn run_objects(
    alloc: Global,
    options: &RunOptions,
    program: &Program,
    choices: &Choices,
    objects: &[Object],
    input: Vec<u8>,
    entries: &[u8],
) -> Result<Decision, AllocError>
    requires objects { All (λ o. IsObject (object_view o)) objects.now }
    requires options { CanRun options.now }
    requires threads { list_all (λ t. nat_lt t THREAD_LIMIT) entries.now ≡ true }
    ensures { IfOk result (λ d. RunsHeld options.now (record { program = program.now; choices = choices.now }) (map object_view objects.now) input.items entries.now d.answer (map written_of d.writes.items)) }
{
    match link(alloc, objects) {
        Ok(image) => run_image(
            alloc, options, program, choices, objects, image, input, entries,
        ),
        Err(fault) => bad_link(alloc, &fault),
    }
}
