// The interface for C: each function of `zeldrupa` under its own name, with its own clauses. The static library is made of this crate.
#![tactic(auto)]

ghost use Rattle.std.specs.Prelude.{length};
ghost use Rattle.zeldrupa.specs.Promises.{Gives, GivesSheet, GivesBundle, GivesCheck, GivesRelease, GivesDrift, GivesBetter, GivesPlan, GivesLeast, GivesListing, GivesWeight, GivesGenerated, levels_answer, write_sheet_answer, read_sheet_answer, read_bundle_answer, write_bundle_answer};
ghost use Rattle.zeldrupa.specs.Stepping.{GivesStart, GivesRun, GivesStep, GivesLeft, GivesProcessor, GivesStamp};

// Reads a sheet into its tables: two values a task, four a link; processors, limit, tasks, links, the unpacking time, and 1 for a cube into `board`.
#[unsafe(no_mangle)]
pub extern "C" fn zeldrupa_read_sheet(
    sheet: &[u8],
    work: &mut [u32],
    tasks: &mut [u16],
    links: &mut [u16],
    board: &mut [u32; 6],
    place: &mut u64,
) -> u8
    ensures { GivesSheet (read_sheet_answer sheet.now (length work.old) (length tasks.old) (length links.old)) work.old work.new tasks.old tasks.new links.old links.new board.old board.new place.new result }
{
    zeldrupa::zeldrupa_read_sheet(sheet, work, tasks, links, board, place)
}

// Writes a sheet from its values. A `cube` of 0 writes no 48, any other one.
#[unsafe(no_mangle)]
pub extern "C" fn zeldrupa_write_sheet(
    processors: u8,
    limit: u32,
    unpacking: u16,
    cube: u8,
    tasks: &[u16],
    links: &[u16],
    work: &mut [u32],
    out: &mut [u8],
    place: &mut u64,
) -> u8
    ensures { Gives (write_sheet_answer processors limit unpacking cube tasks.now links.now (length work.old) (length out.old)) work.old work.new out.old out.new place.new result }
{
    zeldrupa::zeldrupa_write_sheet(
        processors, limit, unpacking, cube, tasks, links, work, out, place,
    )
}

// Writes the sheet that a seed gives, with so many tasks and tries for links.
#[unsafe(no_mangle)]
pub extern "C" fn zeldrupa_generate(
    seed: u32,
    tasks: u32,
    tries: u32,
    processors: u32,
    limit: u32,
    work: &mut [u32],
    out: &mut [u8],
    place: &mut u64,
) -> u8
    ensures { GivesGenerated seed tasks tries processors limit work.old work.new out.old out.new place.new result }
{
    zeldrupa::zeldrupa_generate(seed, tasks, tries, processors, limit, work, out, place)
}

// The level of each task of a sheet.
#[unsafe(no_mangle)]
pub extern "C" fn zeldrupa_levels(
    sheet: &[u8],
    work: &mut [u32],
    out: &mut [u32],
    place: &mut u64,
) -> u8
    ensures { Gives (levels_answer sheet.now (length work.old) (length out.old)) work.old work.new out.old out.new place.new result }
{
    zeldrupa::zeldrupa_levels(sheet, work, out, place)
}

// Reads a bundle for a sheet: two values a command, and the claim.
#[unsafe(no_mangle)]
pub extern "C" fn zeldrupa_read_bundle(
    sheet: &[u8],
    bundle: &[u8],
    work: &mut [u32],
    commands: &mut [u16],
    claim: &mut u32,
    place: &mut u64,
) -> u8
    ensures { GivesBundle (read_bundle_answer sheet.now bundle.now (length work.old) (length commands.old)) work.old work.new commands.old commands.new claim.old claim.new place.new result }
{
    zeldrupa::zeldrupa_read_bundle(sheet, bundle, work, commands, claim, place)
}

// Writes a bundle for a sheet from its values and its claim.
#[unsafe(no_mangle)]
pub extern "C" fn zeldrupa_write_bundle(
    sheet: &[u8],
    commands: &[u16],
    claim: u32,
    work: &mut [u32],
    out: &mut [u8],
    place: &mut u64,
) -> u8
    ensures { Gives (write_bundle_answer sheet.now commands.now claim (length work.old) (length out.old)) work.old work.new out.old out.new place.new result }
{
    zeldrupa::zeldrupa_write_bundle(sheet, commands, claim, work, out, place)
}

// Checks a bundle for a sheet.
#[unsafe(no_mangle)]
pub extern "C" fn zeldrupa_check(
    sheet: &[u8],
    bundle: &[u8],
    work: &mut [u32],
    place: &mut u64,
) -> u8
    ensures { GivesCheck sheet.now bundle.now work.old work.new place.new result }
{
    zeldrupa::zeldrupa_check(sheet, bundle, work, place)
}

// Gives back store that is finished with: an accepted bundle without releases gets each at its earliest right position. One that has any comes out as it went in.
#[unsafe(no_mangle)]
pub extern "C" fn zeldrupa_release(
    sheet: &[u8],
    bundle: &[u8],
    work: &mut [u32],
    out: &mut [u8],
    place: &mut u64,
) -> u8
    ensures { GivesRelease sheet.now bundle.now work.old work.new out.old out.new place.new result }
{
    zeldrupa::zeldrupa_release(sheet, bundle, work, out, place)
}

// How far the work of each task of an accepted bundle may grow before the finishing time moves: four bytes for each, lowest first.
#[unsafe(no_mangle)]
pub extern "C" fn zeldrupa_drift(
    sheet: &[u8],
    bundle: &[u8],
    work: &mut [u32],
    out: &mut [u8],
    place: &mut u64,
) -> u8
    ensures { GivesDrift sheet.now bundle.now work.old work.new out.old out.new place.new result }
{
    zeldrupa::zeldrupa_drift(sheet, bundle, work, out, place)
}

// Checks two bundles for a sheet: `kept` becomes the better one, the very bytes that were lent, and the place is their length. A refusal makes it the empty front of
// the first.
#[unsafe(no_mangle)]
pub extern "C" fn zeldrupa_better<'a>(
    sheet: &[u8],
    first: &'a [u8],
    second: &'a [u8],
    work: &mut [u32],
    kept: &mut &'a [u8],
    place: &mut u64,
) -> u8
    ensures { GivesBetter sheet.now first.entry second.entry work.old work.new kept.new place.new result }
{
    zeldrupa::zeldrupa_better(sheet, first, second, work, kept, place)
}

// Plans a sheet: the bytes of the bundle.
#[unsafe(no_mangle)]
pub extern "C" fn zeldrupa_plan(
    sheet: &[u8],
    work: &mut [u32],
    out: &mut [u8],
    place: &mut u64,
) -> u8
    ensures { GivesPlan sheet.now work.old work.new out.old out.new place.new result }
{
    zeldrupa::zeldrupa_plan(sheet, work, out, place)
}

// The bytes of the bundle of the least time, for a sheet of at most six tasks that is no cube.
#[unsafe(no_mangle)]
pub extern "C" fn zeldrupa_least(
    sheet: &[u8],
    work: &mut [u32],
    out: &mut [u8],
    place: &mut u64,
) -> u8
    ensures { GivesLeast sheet.now work.old work.new out.old out.new place.new result }
{
    zeldrupa::zeldrupa_least(sheet, work, out, place)
}

// The listing of a sheet's plan, or of its refusal.
#[unsafe(no_mangle)]
pub extern "C" fn zeldrupa_listing(
    sheet: &[u8],
    work: &mut [u32],
    out: &mut [u8],
    place: &mut u64,
) -> u8
    ensures { GivesListing sheet.now work.old work.new out.old out.new place.new result }
{
    zeldrupa::zeldrupa_listing(sheet, work, out, place)
}

// The weight of a formula, with the values of the letters a to z: the place is the weight.
#[unsafe(no_mangle)]
pub extern "C" fn zeldrupa_weight(text: &[u8], letters: &[u32], place: &mut u64) -> u8
    ensures { GivesWeight text.now letters.now place.new result }
{
    zeldrupa::zeldrupa_weight(text, letters, place)
}

// Starts the machine: `state` keeps its state from then on, and is lent to each function below.
#[unsafe(no_mangle)]
pub extern "C" fn zeldrupa_start(
    sheet: &[u8],
    bundle: &[u8],
    work: &mut [u32],
    state: &mut [u32],
    place: &mut u64,
) -> u8
    ensures { GivesStart sheet.now bundle.now work.old work.new state.old state.new place.new result }
{
    zeldrupa::zeldrupa_start(sheet, bundle, work, state, place)
}

// Starts the machine and makes these choices: how many stepped.
#[unsafe(no_mangle)]
pub extern "C" fn zeldrupa_run(
    sheet: &[u8],
    bundle: &[u8],
    choices: &[u8],
    work: &mut [u32],
    state: &mut [u32],
    place: &mut u64,
) -> u8
    ensures { GivesRun choices.now sheet.now bundle.now work.old work.new state.old state.new place.new result }
{
    zeldrupa::zeldrupa_run(sheet, bundle, choices, work, state, place)
}

// One command of the chosen processor: the place is 1 if it stepped, 0 if it could not.
#[unsafe(no_mangle)]
pub extern "C" fn zeldrupa_step(
    sheet: &[u8],
    bundle: &[u8],
    state: &mut [u32],
    choice: u64,
    place: &mut u64,
) -> u8
    ensures { GivesStep state.old state.new choice place.new result }
{
    zeldrupa::zeldrupa_step(sheet, bundle, state, choice, place)
}

// The commands still to do.
#[unsafe(no_mangle)]
pub extern "C" fn zeldrupa_left(bundle: &[u8], state: &[u32], place: &mut u64) -> u8
    ensures { GivesLeft state.now place.new result }
{
    zeldrupa::zeldrupa_left(bundle, state, place)
}

// Clock, position and store in use of processor k.
#[unsafe(no_mangle)]
pub extern "C" fn zeldrupa_processor(
    bundle: &[u8],
    state: &[u32],
    k: u64,
    processor: &mut [u32; 3],
    place: &mut u64,
) -> u8
    ensures { GivesProcessor state.now k processor.old processor.new place.new result }
{
    zeldrupa::zeldrupa_processor(bundle, state, k, processor, place)
}

// One more than the stamp of a link's message, or 0 while it is not sent.
#[unsafe(no_mangle)]
pub extern "C" fn zeldrupa_stamp(state: &[u32], link: u64, place: &mut u64) -> u8
    ensures { GivesStamp state.now link place.new result }
{
    zeldrupa::zeldrupa_stamp(state, link, place)
}
