// What is kept beside the schedule: of each task the links that are known, of each processor its end, its store and the links that wait.
#![tactic(auto)]

ghost use Rattle.std.specs.Prelude.{◌≡◌, true, ◌+◌, ◌*◌, ◌%◌, ◌^◌, ◌<◌, ◌≤◌, max, length, get_or, eqb, ltb};
ghost use Rattle.folds.specs.Folds.{pick};
ghost use Rattle.sheet.specs.Sheet.{task_count, link_count, source_of, target_of};
ghost use Rattle.sheet.specs.Hops.{hops, link_time};
ghost use Rattle.sheet.specs.Tables.{sheet_in, Loaded};
ghost use Rattle.planner.specs.Schedule.{put, latest_finish, latest_start, placed};
ghost use Rattle.planner.specs.Placing.{ready, ready_arrival, end_of, start_by, start_from};
ghost use Rattle.schedule.specs.Layout.{schedule_in};
ghost use Rattle.adjacency.specs.Frames.{Only};
ghost use Rattle.adjacency.specs.Chains.{Chained};
ghost use Rattle.adjacency.specs.declared.End.TheVariants.{Target};
ghost use Rattle.arrivals.specs.Layout.{seen_from, ends_from, waiting_from, turn_bytes_from, packed_from, kept_length};
ghost use Rattle.arrivals.specs.Kept.{Single, Gathered, Counted, SurveyedTo, Surveyed, Ends, Kept};
ghost use Rattle.arrivals.specs.Lanes.{Lanes, Steps, Away, start_past, start_unpacked, start_hopped, start_beyond, fresh_past, Soon, Started, Early};
ghost use Rattle.arrivals.specs.Reach.{further};
ghost use Rattle.arrivals.specs.Steps.{count_words, up_to, Beside, Placeable, Landed, Released, Enough, GatheredTo};

use adjacency::End;
use sheet::{hops, tables};

// Where each table of the planner's own words begins, and how many words these are: specs/Layout says what they hold.
pub const BYTES: usize = 256;

pub const SEEN: usize = 512;

pub const ARRIVALS: usize = 768;

pub const SENDERS: usize = 1024;

pub const ENDS: usize = 1280;

pub const STORES: usize = 1296;

pub const OPEN: usize = 1312;

pub const WAITING: usize = 1328;

pub const TURN_BYTES: usize = 1344;

pub const TURN_LINKS: usize = 1360;

pub const PACKED: usize = 1376;

pub const LENGTH: usize = 2400;

// When the latest message to a task is there, and the processor that it comes from.
#[derive(Clone, Copy)]
pub struct Reach {
    pub at: usize,
    pub most: usize,
}

// One of two numbers by a test; without a branch, since it cannot be foretold.
fn chosen(test: bool, x: usize, y: usize) -> usize
    ensures { result ≡ pick test x y }
{
    if test { x } else { y }
}

// A reach y from k besides.
fn reached(reach: Reach, k: usize, y: usize) -> Reach
    ensures { result ≡ further reach k y }
{
    let most = reach.most;
    Reach {
        at: chosen(most < y, k, reach.at),
        most: most.max(y),
    }
}

// The words of task v and processor k with one more link from k to v.
fn write_link(
    kept: &mut [u32],
    v: usize,
    k: usize,
    seen: usize,
    reach: Reach,
    pending: usize,
    number: usize,
)
    requires kept_length_in_bounds { kept_length ≤ length kept.old }
    requires v_bound { (v < 256) × (k < 16) × (seen < 4294967296) × (reach.at < 4294967296) × (reach.most < 4294967296) × (pending < 4294967296) × (number < 4294967296) }
    ensures { kept.new ≡ count_words kept.old v k seen reach pending number }
{
    let at = reach.at;
    let most = reach.most;
    kept[SEEN + v] = seen as u32;
    kept[ARRIVALS + v] = most as u32;
    kept[SENDERS + v] = at as u32;
    kept[WAITING + k] = pending as u32;
    kept[PACKED + (4 * v + k / 4)] = number as u32;
}

// 1 in the byte of processor k, in a word of four counts.
fn one_of(k: usize) -> usize
    ensures { result ≡ 2 ^ (8 * (k % 4)) }
{
    1 << (8 * (k % 4))
}

// Link l is counted; it leads from t, which stands on k until f.
pub fn count_link(w: &[u32], kept: &mut [u32], t: usize, k: usize, f: usize, l: usize)
    requires loaded { Loaded w.now × (kept_length ≤ length kept.old) }
    requires k_bound { (k < 16) × (f < 2147483648) × (l < link_count (sheet_in w.now)) × (source_of (sheet_in w.now) l ≡ t) }
    requires single { Single (sheet_in w.now) × Landed (sheet_in w.now) (schedule_in w.now) t k f }
    requires counted { Counted (sheet_in w.now) (schedule_in w.now) (up_to (sheet_in w.now) (schedule_in w.now) t l) kept.old }
    ensures { Beside kept.old kept.new × Counted (sheet_in w.now) (schedule_in w.now) (up_to (sheet_in w.now) (schedule_in w.now) t (l + 1)) kept.new }
{
    let v = tables::target(w, l);
    let c = tables::cost(w, l);
    let seen = workspace::word(kept, SEEN + v);
    let most = workspace::word(kept, ARRIVALS + v);
    let at = workspace::word(kept, SENDERS + v);
    let pending = workspace::word(kept, WAITING + k);
    let number = workspace::word(kept, PACKED + (4 * v + k / 4));
    let reach = reached(Reach { at, most }, k, f + c);
    write_link(kept, v, k, seen + 1, reach, pending + 1, number + one_of(k));
}

// k ends at f with t on it, from a on, and is open.
pub fn settle(w: &[u32], kept: &mut [u32], t: usize, k: usize, a: usize, f: usize)
    requires kept { Kept w.now kept.old }
    requires placeable { Placeable (sheet_in w.now) (schedule_in w.now) t k × Surveyed (sheet_in w.now) (schedule_in w.now) t kept.old }
    requires f_bound { (f < 2147483648) × (end_of (sheet_in w.now) (schedule_in w.now) k ≤ f) }
    ensures { Only ends_from waiting_from kept.old kept.new × Ends (sheet_in w.now) (put (schedule_in w.now) t k a f) kept.new }
{
    let x = workspace::word(kept, STORES + k);
    let y = tables::store(w, t);
    let z = workspace::word(kept, BYTES + t);
    let v = workspace::word(kept, TURN_BYTES + k);
    let u = x + y + z;
    let r = u - v;
    kept[ENDS + k] = f as u32;
    kept[STORES + k] = r as u32;
    kept[OPEN + k] = 1;
}

// The links into the task of this turn wait no more.
pub fn release(kept: &mut [u32])
    requires kept_length_in_bounds { kept_length ≤ length kept.old }
    requires enough { Enough kept.old }
    ensures { Released 16 kept.old kept.new }
{
    for j in 0..16 {
        kept[WAITING + j] -= kept[TURN_LINKS + j];
    }
}

// Link l into t is surveyed.
fn survey_link(w: &[u32], kept: &mut [u32], t: usize, l: usize)
    requires loaded { Loaded w.now × (kept_length ≤ length kept.old) }
    requires l_bound { (l < link_count (sheet_in w.now)) × (target_of (sheet_in w.now) l ≡ t) × (placed (schedule_in w.now) (source_of (sheet_in w.now) l) ≡ true) }
    requires surveyed_to { SurveyedTo (sheet_in w.now) (schedule_in w.now) t l kept.old }
    ensures { Only turn_bytes_from packed_from kept.old kept.new × SurveyedTo (sheet_in w.now) (schedule_in w.now) t (l + 1) kept.new }
{
    let k = schedule::place(w, tables::source(w, l));
    kept[TURN_BYTES + k] += tables::size(w, l) as u32;
    kept[TURN_LINKS + k] += 1;
}

// The start of a task on each of the sixteen processors.
#[derive(Clone, Copy)]
pub struct Starts {
    pub at: [u32; 16],
}

// How long a message from source is under way to k: it takes no time on the same processor.
fn way(source: usize, k: usize, time: u32) -> u32
    ensures { result ≡ pick (eqb source k) 0 time }
{
    if source == k { 0 } else { time }
}

// A start x on k, past one link more.
fn start_past(x: u32, k: usize, source: usize, finish: u32, time: u32) -> u32
    requires { (finish ≤ latest_finish) × (time ≤ 65535) }
    ensures { result ≡ start_past source finish time k x }
{
    x.max(finish + way(source, k, time))
}

// The starts on all processors, past one link more: the loop is a few vector instructions.
fn starts_past(starts: Starts, source: usize, finish: u32, time: u32) -> Starts
    requires { (finish ≤ latest_finish) × (time ≤ 65535) }
    ensures { Steps (start_past source finish time) starts result }
{
    let mut r = starts;
    for k in 0..16 {
        r.at[k] = start_past(r.at[k], k, source, finish, time);
    }
    r
}

// A start x on k, past one link more, whose message is there at `reach` and is received unless it comes from k itself; without a branch.
fn start_unpacked(x: u32, k: usize, source: usize, reach: u32, unpacking: u32) -> u32
    requires { (x ≤ latest_start) × (reach ≤ latest_start) × (unpacking ≤ 65535) }
    ensures { result ≡ start_unpacked source reach unpacking k x }
{
    let y = x.max(reach) + unpacking;
    if source == k { x } else { y }
}

// The starts on all processors, past one link more, where receives take time.
fn starts_unpacked(starts: Starts, source: usize, reach: u32, unpacking: u32) -> Starts
    requires { Soon starts × (reach ≤ latest_start) × (unpacking ≤ 65535) }
    ensures { Steps (start_unpacked source reach unpacking) starts result }
{
    let mut r = starts;
    for k in 0..16 {
        r.at[k] = start_unpacked(r.at[k], k, source, reach, unpacking);
    }
    r
}

// How many hops each processor is from one: in a row of its own, since a loop over bytes is a few vector instructions.
#[derive(Clone, Copy)]
pub struct Row {
    pub at: [u8; 16],
}

fn hops_from(source: usize) -> Row
    requires { source < 16 }
    ensures { Away source result }
{
    let from = source as u8;
    let mut r = Row { at: [0; 16] };
    for k in 0..16 {
        r.at[k] = hops::hops(from, k as u8) as u8;
    }
    r
}

// The time of a message over so many hops.
fn times(cost: u16, hops: u8) -> u32
    ensures { (result ≡ cost * hops) × (result ≤ 16711425) }
{
    (cost as u32) * (hops as u32)
}

// The starts on all processors of a cube, past one link more, whose message takes its cost for each hop.
fn starts_hopped(
    starts: Starts,
    row: Row,
    source: usize,
    finish: u32,
    cost: u16,
    unpacking: u32,
) -> Starts
    requires { Soon starts × (finish ≤ latest_finish) × (unpacking ≤ 65535) }
    ensures { Steps (start_hopped row source finish cost unpacking) starts result }
{
    let mut r = starts;
    for k in 0..16 {
        let time = times(cost, row.at[k]);
        r.at[k] = start_unpacked(r.at[k], k, source, finish + time, unpacking);
    }
    r
}

// Past link l, whose source is placed; the unpacking time and whether the board is a cube are the same for the whole walk.
fn starts_with(w: &[u32], starts: Starts, cube: bool, unpacking: u32, l: usize) -> Starts
    requires loaded { Loaded w.now × (l < link_count (sheet_in w.now)) × (placed (schedule_in w.now) (source_of (sheet_in w.now) l) ≡ true) }
    requires early { Early (schedule_in w.now) × Soon starts × (cube ≡ (sheet_in w.now).cube) × (unpacking ≡ (sheet_in w.now).unpacking) }
    ensures { Steps (start_beyond (sheet_in w.now) (schedule_in w.now) l) starts result }
{
    let u = tables::source(w, l);
    let k = schedule::place(w, u);
    let f = schedule::finish(w, u) as u32;
    let cost = tables::cost(w, l);
    if cube {
        starts_hopped(starts, hops_from(k), k, f, cost as u16, unpacking)
    } else if unpacking == 0 {
        starts_past(starts, k, f, cost as u32)
    } else {
        starts_unpacked(starts, k, f + cost as u32, unpacking)
    }
}

// Where nothing has to be waited for: the processors' ends.
fn begun(kept: &[u32]) -> Starts
    requires { kept_length ≤ length kept.now }
    ensures { Lanes (λ k. get_or kept.now (ends_from + k) 0) result }
{
    let mut at = [0u32; 16];
    at.copy_from_slice(&kept[ENDS..ENDS + 16]);
    Starts { at }
}

// All links into t are surveyed, and give its starts. The walk ends by their number, which is known before the links are.
fn survey_links(w: &[u32], kept: &mut [u32], t: usize) -> Starts
    requires loaded { Loaded w.now × (kept_length ≤ length kept.old) }
    requires chained { Chained Target (sheet_in w.now) w.now }
    requires t_bound { (t < task_count (sheet_in w.now)) × (ready (sheet_in w.now) (schedule_in w.now) t ≡ true) }
    requires gathered { Gathered (sheet_in w.now) kept.old × SurveyedTo (sheet_in w.now) (schedule_in w.now) t 0 kept.old }
    requires ends { Ends (sheet_in w.now) (schedule_in w.now) kept.old × Early (schedule_in w.now) }
    ensures { Only turn_bytes_from packed_from kept.old kept.new × Surveyed (sheet_in w.now) (schedule_in w.now) t kept.new × Started w.now t result }
{
    let n = workspace::word(kept, t);
    let cube = tables::cube(w);
    let unpacking = tables::unpacking(w) as u32;
    let mut starts = begun(kept);
    let mut l = adjacency::first(w, End::Target, t);
    for _i in 0..n {
        starts = starts_with(w, starts, cube, unpacking, l);
        survey_link(w, kept, t, l);
        l = adjacency::next(w, End::Target, l);
    }
    starts
}

// The links into t, whose turn it is, by the processor that they come from, and t's starts.
pub fn survey(w: &[u32], kept: &mut [u32], t: usize) -> Starts
    requires kept { Kept w.now kept.old }
    requires t_bound { (t < task_count (sheet_in w.now)) × (ready (sheet_in w.now) (schedule_in w.now) t ≡ true) }
    requires early { Early (schedule_in w.now) }
    ensures { Only turn_bytes_from packed_from kept.old kept.new × Surveyed (sheet_in w.now) (schedule_in w.now) t kept.new × Started w.now t result }
{
    workspace::clear_words(kept, TURN_BYTES, PACKED);
    survey_links(w, kept, t)
}

// How long a message of this cost is under way from one processor of a cube to another.
fn hop_time(cost: usize, at: usize, k: usize) -> usize
    requires { (cost < 65536) × (at < 16) × (k < 16) }
    ensures { (result ≡ cost * hops at k) × (result ≤ 524280) }
{
    cost * hops::hops(at as u8, k as u8) as usize
}

// How long the message of link l is under way to k from where its source stands, if it is placed.
fn time_to(w: &[u32], cube: bool, l: usize, at: usize, k: usize) -> usize
    requires { Loaded w.now × (l < link_count (sheet_in w.now)) × (k < 16) × (cube ≡ (sheet_in w.now).cube) }
    ensures { ((at < 16 → result ≡ link_time (sheet_in w.now) l at k)) × (result ≤ 524280) }
{
    let cost = tables::cost(w, l);
    if cube && at < 16 {
        hop_time(cost, at, k)
    } else {
        cost
    }
}

// What t, to which link l leads, waits for on k: nothing while the link's source is not placed.
fn start_by(w: &[u32], cube: bool, k: usize, l: usize) -> usize
    requires { Loaded w.now × (l < link_count (sheet_in w.now)) × (k < 16) × (cube ≡ (sheet_in w.now).cube) }
    ensures { result ≡ start_by (sheet_in w.now) (schedule_in w.now) (target_of (sheet_in w.now) l) k l }
{
    let u = tables::source(w, l);
    let at = schedule::place(w, u);
    let c = chosen(at == k, 0, time_to(w, cube, l, at, k));
    chosen(at < 16, schedule::finish(w, u) + c, 0)
}

// By its placed predecessors a partly ready t starts on k before a limit: the walk ends where it is told that it does not, which is mostly soon.
pub fn starts_before(w: &[u32], kept: &[u32], t: usize, k: usize, limit: usize) -> bool
    requires kept { Kept w.now kept.now }
    requires t_bound { (t < task_count (sheet_in w.now)) × (k < 16) }
    ensures { result ≡ ltb (start_from (sheet_in w.now) (schedule_in w.now) t k (end_of (sheet_in w.now) (schedule_in w.now) k)) limit }
{
    let n = workspace::word(kept, t);
    let cube = tables::cube(w);
    let mut start = workspace::word(kept, ENDS + k);
    let mut l = adjacency::first(w, End::Target, t);
    for _i in 0..n {
        if limit <= start {
            return false;
        }
        start = start.max(start_by(w, cube, k, l));
        l = adjacency::next(w, End::Target, l);
    }
    start < limit
}

// The time x of a fresh processor, past link l: its message is received, but none comes while its source is not placed.
fn unpacked_with(w: &[u32], x: usize, unpacking: usize, l: usize) -> usize
    requires loaded { Loaded w.now × (l < link_count (sheet_in w.now)) }
    requires x_le_latest_start { (x ≤ latest_start) × (unpacking ≡ (sheet_in w.now).unpacking) }
    ensures { result ≡ fresh_past (sheet_in w.now) (schedule_in w.now) (target_of (sheet_in w.now) l) l x }
{
    let u = tables::source(w, l);
    let reach = schedule::finish(w, u) + tables::cost(w, l);
    let received = x.max(reach) + unpacking;
    chosen(schedule::place(w, u) < 16, received, x)
}

// When t has unpacked all its messages on a fresh processor.
pub fn fresh_start(w: &[u32], t: usize, unpacking: usize) -> usize
    requires loaded { Loaded w.now × Chained Target (sheet_in w.now) w.now }
    requires t_bound { (t < task_count (sheet_in w.now)) × (unpacking ≡ (sheet_in w.now).unpacking) × Early (schedule_in w.now) }
    ensures { (result ≡ ready_arrival (sheet_in w.now) (schedule_in w.now) t) × (result ≤ latest_start) }
{
    let m = tables::links(w);
    let mut x: usize = 0;
    let mut l = adjacency::first(w, End::Target, t);
    while l < m {
        x = unpacked_with(w, x, unpacking, l);
        l = adjacency::next(w, End::Target, l);
    }
    x
}

// Link l is gathered at its target.
fn gather_one(w: &[u32], kept: &mut [u32], l: usize)
    requires loaded { Loaded w.now × (kept_length ≤ length kept.old) }
    requires l_bound { l < link_count (sheet_in w.now) }
    requires gathered_to { GatheredTo (sheet_in w.now) l kept.old }
    ensures { Only 0 seen_from kept.old kept.new × GatheredTo (sheet_in w.now) (l + 1) kept.new }
{
    let t = tables::target(w, l);
    kept[t] += 1;
    kept[BYTES + t] += tables::size(w, l) as u32;
}

// All links are gathered.
pub fn gather(w: &[u32], kept: &mut [u32])
    requires loaded { Loaded w.now × (kept_length ≤ length kept.old) }
    requires gathered_to { GatheredTo (sheet_in w.now) 0 kept.old }
    ensures { Only 0 seen_from kept.old kept.new × GatheredTo (sheet_in w.now) (link_count (sheet_in w.now)) kept.new }
{
    let m = tables::links(w);
    for l in 0..m {
        gather_one(w, kept, l);
    }
}
