// The interface for C and Rust. Every function that is lent a work area refuses a short one first (13), then in the document's order; a refusal changes no
// output but `kept` of zeldrupa_better, and the work area is all zero afterwards, except under 13, where it is untouched. What each of them gives is in
// specs/Promises.antt, and of the stepping machine in specs/Stepping.antt.
#![tactic(auto)]

ghost use Rattle.std.specs.Prelude.{length};
ghost use Rattle.zeldrupa.specs.Promises.{Gives, GivesSheet, GivesBundle, GivesCheck, GivesRelease, GivesDrift, GivesBetter, GivesPlan, GivesLeast, GivesListing, GivesWeight, GivesGenerated, levels_answer, write_sheet_answer, read_sheet_answer, read_bundle_answer, write_bundle_answer};
ghost use Rattle.zeldrupa.specs.Stepping.{GivesStart, GivesRun, GivesStep, GivesLeft, GivesProcessor, GivesStamp};

use entry_points::{bundles, ending, reports, runs, sheets};
use refusals::Fault;

// Reads a sheet into its tables: two values a task, four a link; processors, limit, tasks, links, the unpacking time, and 1 for a cube into `board`.
pub fn zeldrupa_read_sheet(
    sheet: &[u8],
    work: &mut [u32],
    tasks: &mut [u16],
    links: &mut [u16],
    board: &mut [u32; 6],
    place: &mut u64,
) -> u8
    ensures { GivesSheet (read_sheet_answer sheet.now (length work.old) (length tasks.old) (length links.old)) work.old work.new tasks.old tasks.new links.old links.new board.old board.new place.new result }
{
    if work.len() < workspace::LENGTH {
        *place = workspace::LENGTH as u64;
        return Fault::ShortWorkArea as u8;
    }
    let o = sheets::read(sheet, work, tasks, links, board);
    workspace::clear(work);
    ending::conclude(o, place)
}

// Writes a sheet from its values. A `cube` of 0 writes no 48, any other one.
pub fn zeldrupa_write_sheet(
    processors: u8,
    limit: u32,
    unpacking: u16,
    cube: u8,
    tasks: &[u16],
    links: &[u16],
    work: &mut [u32],
    out: &mut [u8],
    place: &mut u64,
) -> u8
    ensures { Gives (write_sheet_answer processors limit unpacking cube tasks.now links.now (length work.old) (length out.old)) work.old work.new out.old out.new place.new result }
{
    if work.len() < workspace::LENGTH {
        *place = workspace::LENGTH as u64;
        return Fault::ShortWorkArea as u8;
    }
    let o = sheets::write(processors, limit, unpacking, cube, tasks, links, work, out);
    workspace::clear(work);
    ending::conclude(o, place)
}

// Writes the sheet that a seed gives, with so many tasks and tries for links.
pub fn zeldrupa_generate(
    seed: u32,
    tasks: u32,
    tries: u32,
    processors: u32,
    limit: u32,
    work: &mut [u32],
    out: &mut [u8],
    place: &mut u64,
) -> u8
    ensures { GivesGenerated seed tasks tries processors limit work.old work.new out.old out.new place.new result }
{
    if work.len() < workspace::LENGTH {
        *place = workspace::LENGTH as u64;
        return Fault::ShortWorkArea as u8;
    }
    let o = sheets::generate(seed, tasks, tries, processors, limit, work, out);
    workspace::clear(work);
    ending::conclude(o, place)
}

// The level of each task of a sheet.
pub fn zeldrupa_levels(sheet: &[u8], work: &mut [u32], out: &mut [u32], place: &mut u64) -> u8
    ensures { Gives (levels_answer sheet.now (length work.old) (length out.old)) work.old work.new out.old out.new place.new result }
{
    if work.len() < workspace::LENGTH {
        *place = workspace::LENGTH as u64;
        return Fault::ShortWorkArea as u8;
    }
    let o = sheets::levels(sheet, work, out);
    workspace::clear(work);
    ending::conclude(o, place)
}

// Reads a bundle for a sheet: two values a command, and the claim.
pub fn zeldrupa_read_bundle(
    sheet: &[u8],
    bundle: &[u8],
    work: &mut [u32],
    commands: &mut [u16],
    claim: &mut u32,
    place: &mut u64,
) -> u8
    ensures { GivesBundle (read_bundle_answer sheet.now bundle.now (length work.old) (length commands.old)) work.old work.new commands.old commands.new claim.old claim.new place.new result }
{
    if work.len() < workspace::LENGTH {
        *place = workspace::LENGTH as u64;
        return Fault::ShortWorkArea as u8;
    }
    let o = bundles::read(sheet, bundle, work, commands, claim);
    workspace::clear(work);
    ending::conclude(o, place)
}

// Writes a bundle for a sheet from its values and its claim.
pub fn zeldrupa_write_bundle(
    sheet: &[u8],
    commands: &[u16],
    claim: u32,
    work: &mut [u32],
    out: &mut [u8],
    place: &mut u64,
) -> u8
    ensures { Gives (write_bundle_answer sheet.now commands.now claim (length work.old) (length out.old)) work.old work.new out.old out.new place.new result }
{
    if work.len() < workspace::LENGTH {
        *place = workspace::LENGTH as u64;
        return Fault::ShortWorkArea as u8;
    }
    let o = bundles::write(sheet, commands, claim, work, out);
    workspace::clear(work);
    ending::conclude(o, place)
}

// Checks a bundle for a sheet.
pub fn zeldrupa_check(sheet: &[u8], bundle: &[u8], work: &mut [u32], place: &mut u64) -> u8
    ensures { GivesCheck sheet.now bundle.now work.old work.new place.new result }
{
    if work.len() < workspace::LENGTH {
        *place = workspace::LENGTH as u64;
        return Fault::ShortWorkArea as u8;
    }
    let o = bundles::check(sheet, bundle, work);
    workspace::clear(work);
    ending::conclude(o, place)
}

// Gives back store that is finished with: an accepted bundle without releases gets each at its earliest right position. One that has any comes out as it went in.
pub fn zeldrupa_release(
    sheet: &[u8],
    bundle: &[u8],
    work: &mut [u32],
    out: &mut [u8],
    place: &mut u64,
) -> u8
    ensures { GivesRelease sheet.now bundle.now work.old work.new out.old out.new place.new result }
{
    if work.len() < workspace::LENGTH {
        *place = workspace::LENGTH as u64;
        return Fault::ShortWorkArea as u8;
    }
    let o = bundles::release(sheet, bundle, work, out);
    workspace::clear(work);
    ending::conclude(o, place)
}

// How far the work of each task of an accepted bundle may grow before the finishing time moves: four bytes for each, lowest first.
pub fn zeldrupa_drift(
    sheet: &[u8],
    bundle: &[u8],
    work: &mut [u32],
    out: &mut [u8],
    place: &mut u64,
) -> u8
    ensures { GivesDrift sheet.now bundle.now work.old work.new out.old out.new place.new result }
{
    if work.len() < workspace::LENGTH {
        *place = workspace::LENGTH as u64;
        return Fault::ShortWorkArea as u8;
    }
    let o = reports::drift(sheet, bundle, work, out);
    workspace::clear(work);
    ending::conclude(o, place)
}

// Checks two bundles for a sheet: `kept` becomes the better one, the very bytes that were lent, and the place is their length. A refusal makes it the empty front of
// the first.
pub fn zeldrupa_better<'a>(
    sheet: &[u8],
    first: &'a [u8],
    second: &'a [u8],
    work: &mut [u32],
    kept: &mut &'a [u8],
    place: &mut u64,
) -> u8
    ensures { GivesBetter sheet.now first.entry second.entry work.old work.new kept.new place.new result }
{
    let mut number = 0u8;
    *kept = better::better(sheet, first, second, work, &mut number, place);
    number
}

// Plans a sheet: the bytes of the bundle.
pub fn zeldrupa_plan(sheet: &[u8], work: &mut [u32], out: &mut [u8], place: &mut u64) -> u8
    ensures { GivesPlan sheet.now work.old work.new out.old out.new place.new result }
{
    if work.len() < workspace::LENGTH {
        *place = workspace::LENGTH as u64;
        return Fault::ShortWorkArea as u8;
    }
    let o = entry_points::plans::write(sheet, work, out);
    workspace::clear(work);
    ending::conclude(o, place)
}

// The bytes of the bundle of the least time, for a sheet of at most six tasks that is no cube.
pub fn zeldrupa_least(sheet: &[u8], work: &mut [u32], out: &mut [u8], place: &mut u64) -> u8
    ensures { GivesLeast sheet.now work.old work.new out.old out.new place.new result }
{
    if work.len() < workspace::LENGTH {
        *place = workspace::LENGTH as u64;
        return Fault::ShortWorkArea as u8;
    }
    let o = entry_points::plans::least(sheet, work, out);
    workspace::clear(work);
    ending::conclude(o, place)
}

// The listing of a sheet's plan, or of its refusal.
pub fn zeldrupa_listing(sheet: &[u8], work: &mut [u32], out: &mut [u8], place: &mut u64) -> u8
    ensures { GivesListing sheet.now work.old work.new out.old out.new place.new result }
{
    if work.len() < workspace::LENGTH {
        *place = workspace::LENGTH as u64;
        return Fault::ShortWorkArea as u8;
    }
    let o = entry_points::plans::list(sheet, work, out);
    workspace::clear(work);
    ending::conclude(o, place)
}

// The weight of a formula, with the values of the letters a to z: the place is the weight.
pub fn zeldrupa_weight(text: &[u8], letters: &[u32], place: &mut u64) -> u8
    ensures { GivesWeight text.now letters.now place.new result }
{
    match formulas::weigh(text, letters) {
        Ok(v) => {
            *place = v;
            0
        }
        Err(refusal) => {
            *place = refusal.place as u64;
            refusal.number
        }
    }
}

// Starts the machine: `state` keeps its state from then on, and is lent to each function below.
pub fn zeldrupa_start(
    sheet: &[u8],
    bundle: &[u8],
    work: &mut [u32],
    state: &mut [u32],
    place: &mut u64,
) -> u8
    ensures { GivesStart sheet.now bundle.now work.old work.new state.old state.new place.new result }
{
    if work.len() < workspace::LENGTH {
        *place = workspace::LENGTH as u64;
        return Fault::ShortWorkArea as u8;
    }
    if state.len() < workspace::LENGTH {
        *place = workspace::LENGTH as u64;
        return Fault::ShortWorkArea as u8;
    }
    let o = runs::start(sheet, bundle, work, state);
    workspace::clear(work);
    ending::conclude(o, place)
}

// Starts the machine and makes these choices: how many stepped.
pub fn zeldrupa_run(
    sheet: &[u8],
    bundle: &[u8],
    choices: &[u8],
    work: &mut [u32],
    state: &mut [u32],
    place: &mut u64,
) -> u8
    ensures { GivesRun choices.now sheet.now bundle.now work.old work.new state.old state.new place.new result }
{
    if work.len() < workspace::LENGTH {
        *place = workspace::LENGTH as u64;
        return Fault::ShortWorkArea as u8;
    }
    if state.len() < workspace::LENGTH {
        *place = workspace::LENGTH as u64;
        return Fault::ShortWorkArea as u8;
    }
    let o = runs::run(sheet, bundle, choices, work, state);
    workspace::clear(work);
    ending::conclude(o, place)
}

// One command of the chosen processor: the place is 1 if it stepped, 0 if it could not.
pub fn zeldrupa_step(
    sheet: &[u8],
    bundle: &[u8],
    state: &mut [u32],
    choice: u64,
    place: &mut u64,
) -> u8
    ensures { GivesStep state.old state.new choice place.new result }
{
    if workspace::LENGTH <= state.len() {
        let stepped = stepping_machine::steps::step(state, choice as usize);
        *place = stepping_machine::steps::counted(stepped) as u64;
        return 0;
    }
    *place = workspace::LENGTH as u64;
    Fault::ShortWorkArea as u8
}

// The commands still to do.
pub fn zeldrupa_left(bundle: &[u8], state: &[u32], place: &mut u64) -> u8
    ensures { GivesLeft state.now place.new result }
{
    if state.len() < workspace::LENGTH {
        *place = workspace::LENGTH as u64;
        return Fault::ShortWorkArea as u8;
    }
    *place = stepping_machine::asks::left(state) as u64;
    0
}

// Clock, position and store in use of processor k.
pub fn zeldrupa_processor(
    bundle: &[u8],
    state: &[u32],
    k: u64,
    processor: &mut [u32; 3],
    place: &mut u64,
) -> u8
    ensures { GivesProcessor state.now k processor.old processor.new place.new result }
{
    if state.len() < workspace::LENGTH {
        *place = workspace::LENGTH as u64;
        return Fault::ShortWorkArea as u8;
    }
    runs::numbers(state, k as usize, processor);
    *place = 0;
    0
}

// One more than the stamp of a link's message, or 0 while it is not sent.
pub fn zeldrupa_stamp(state: &[u32], link: u64, place: &mut u64) -> u8
    ensures { GivesStamp state.now link place.new result }
{
    if state.len() < workspace::LENGTH {
        *place = workspace::LENGTH as u64;
        return Fault::ShortWorkArea as u8;
    }
    *place = stepping_machine::asks::stamp(state, link as usize) as u64;
    0
}
