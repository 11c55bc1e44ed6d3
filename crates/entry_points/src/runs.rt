// The machine's side of the interface, behind the test of the areas.
ghost use Rattle.std.specs.Prelude.{◌≤◌, length};
ghost use Rattle.workspace.specs.Area.{fixed};
ghost use Rattle.machine.specs.Machine.{fresh_state};
ghost use Rattle.machine.specs.Runs.{run_of};
ghost use Rattle.entry_points.specs.Values.{stepped_in};
ghost use Rattle.entry_points.specs.Parts.{StateIs, NumbersIs};

use refusals::Refusal;

// The fresh state.
pub fn start(
    sheet: &[u8],
    bundle: &[u8],
    work: &mut [u32],
    state: &mut [u32],
) -> Result<usize, Refusal>
    requires fixed_in_bounds { fixed ≤ length work.old }
    requires fixed_in_bounds_2 { fixed ≤ length state.old }
    ensures { StateIs (λ x. 0) fresh_state sheet.now bundle.now work.old work.new state.old state.new result }
{
    stepping_machine::start::start(sheet, bundle, work, state)?;
    Ok(0)
}

// The state after a list of choices, and how many of them stepped.
pub fn run(
    sheet: &[u8],
    bundle: &[u8],
    choices: &[u8],
    work: &mut [u32],
    state: &mut [u32],
) -> Result<usize, Refusal>
    requires fixed_in_bounds { fixed ≤ length work.old }
    requires fixed_in_bounds_2 { fixed ≤ length state.old }
    ensures { StateIs (stepped_in choices.now) (λ s b. (run_of s b choices.now).state) sheet.now bundle.now work.old work.new state.old state.new result }
{
    stepping_machine::start::start(sheet, bundle, work, state)?;
    Ok(stepping_machine::steps::run_all(choices, state))
}

// Clock, position and store in use of processor k.
pub fn numbers(state: &[u32], k: usize, processor: &mut [u32; 3])
    ensures { NumbersIs state.now k processor.new }
{
    let clock = workspace::total::narrow(stepping_machine::asks::clock(state, k));
    let position = workspace::total::narrow(stepping_machine::asks::position(state, k));
    let store = workspace::total::narrow(stepping_machine::asks::store(state, k));
    *processor = [clock, position, store];
}
