// How many bytes the bundle of the schedule has.
ghost use Rattle.std.specs.Prelude.{◌≡◌, ◌<◌, ◌≤◌, length};
ghost use Rattle.folds.specs.Folds.{sum};
ghost use Rattle.sheet.specs.Sheet.{link_count};
ghost use Rattle.sheet.specs.Tables.{sheet_in, Loaded};
ghost use Rattle.bundle.specs.Writing.{bundle_bytes};
ghost use Rattle.planner.specs.Planner.{bundle_of};
ghost use Rattle.schedule.specs.Layout.{schedule_in};
ghost use Rattle.plan_writer.specs.Bytes.{message_length};
ghost use Rattle.plan_writer.specs.Scheduled.{Scheduled};

use sheet::tables;

// The send of link l, or its receive.
fn of_message(w: &[u32], l: usize) -> usize
    requires loaded { Loaded w.now }
    requires l_bound { l < link_count (sheet_in w.now) }
    ensures { (result ≡ message_length (sheet_in w.now) (schedule_in w.now) l) × (result ≤ 3) }
{
    let from = schedule::place(w, tables::source(w, l));
    let to = schedule::place(w, tables::target(w, l));
    if from == to { 0 } else { 3 }
}

// The sends of all links, or their receives.
fn of_messages(w: &[u32]) -> usize
    requires { Loaded w.now }
    ensures { (result ≡ sum (link_count (sheet_in w.now)) (message_length (sheet_in w.now) (schedule_in w.now))) × (result ≤ 3072) }
{
    let m = tables::links(w);
    let mut n: usize = 0;
    for l in 0..m {
        n += of_message(w, l);
    }
    n
}

// The whole bundle: the claim, two bytes for each programme and each run, and the messages.
pub fn of_bundle(w: &[u32]) -> usize
    requires { Scheduled w.now }
    ensures { result ≡ length (bundle_bytes (bundle_of (sheet_in w.now) (schedule_in w.now))) }
{
    let opened = schedule::opened(w);
    let placed = schedule::placed(w);
    5 + 2 * opened + 2 * placed + 2 * of_messages(w)
}
