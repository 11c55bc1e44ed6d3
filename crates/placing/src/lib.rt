// Where a task goes: starts, fits and the guard, and the placing steps. Tests that cannot be foretold are joined by `&` and `|`, so that none of them is a branch.
#![tactic(auto)]

ghost use Rattle.std.specs.Prelude.{◌≡◌, true, false, ◌≢◌, ◌+◌, ◌*◌, ◌<◌, ◌≤◌, get_or, length};
ghost use Rattle.std.proofs.Math.Option.{none, some};
ghost use Rattle.folds.specs.Folds.{pick, both, either, any, sum, first, or_else};
ghost use Rattle.sheet.specs.Sheet.{task_count, link_count};
ghost use Rattle.sheet.specs.Tables.{sheet_in};
ghost use Rattle.planner.specs.Schedule.{latest_start, placed};
ghost use Rattle.planner.specs.Placing.{arrival, ready_arrival, end_of, start_on, fits, holds_predecessor, barred, is_open, spent};
ghost use Rattle.planner.specs.Planner.{join, idle, may_open, another, may_share, share, last_resort, choice};
ghost use Rattle.schedule.specs.Layout.{schedule_in};
ghost use Rattle.arrivals.specs.Layout.{senders_from, waiting_from, kept_length};
ghost use Rattle.arrivals.specs.Lanes.{Started};
ghost use Rattle.workspace.specs.Found.{found_of, Below};
ghost use Rattle.readiness.specs.Keyed.{Keyed};
ghost use Rattle.placing.specs.Choosing.{Choosing, known_into, due_by, four_in, Small, MoreDue, DuesTo, Dues, OnBoard};
ghost use Rattle.placing.specs.Sets.{member, tie_of, closed_in};
ghost use Rattle.placing.specs.Ranks.{low_key, high_key, processor_of, join_key, idle_key, may_be_idle};
ghost use Rattle.placing.specs.Guards.{Rival, BarsFor, Bars, JoinBarsFor, JoinBars};

use adjacency::End;
use arrivals::Starts;
use sheet::tables;

// From where links are counted: from one processor, from all, or from processors 4 j to 4 j + 3, a byte for each.
#[derive(Clone, Copy)]
pub enum Senders {
    One(usize),
    All,
    Four(usize),
}

// Sixteen counts, a byte for each: those of processors 0 to 3 in a, of 4 to 7 in b, and so on.
#[derive(Clone, Copy)]
pub struct Counts {
    pub a: usize,
    pub b: usize,
    pub c: usize,
    pub d: usize,
}

// The number with the counts of processors 4 j to 4 j + 3.
fn four_of(x: Counts, j: usize) -> usize
    ensures { result ≡ four_in x j }
{
    match j {
        0 => x.a,
        1 => x.b,
        2 => x.c,
        _ => x.d,
    }
}

// The key of k by the least value, then by the lowest number; 0 where the test fails.
fn low_key(test: bool, value: usize, k: usize) -> usize
    requires { (value < 4294967296) × (k < 16) }
    ensures { result ≡ pick test (low_key value k) 0 }
{
    let key = (4294967296 - value) * 16 + (15 - k);
    if test { key } else { 0 }
}

// The key of k by the greatest value, then by the lowest number.
fn high_key(value: usize, k: usize) -> usize
    requires { (value < 4294967296) × (k < 16) }
    ensures { result ≡ high_key value k }
{
    (value + 1) * 16 + (15 - k)
}

// The processor of the greatest key.
fn processor_of(key: usize) -> Option<usize>
    ensures { (found_of result ≡ processor_of key) × Below 16 result }
{
    if key == 0 {
        return None;
    }
    Some(15 - key % 16)
}

// Some processor below n ends by a, and no more than d links from it wait: mostly none does, and then step 2 gives none.
fn may_be_idle(kept: &[u32], n: usize, a: usize, d: usize) -> bool
    requires { (kept_length ≤ length kept.now) × (n ≤ 16) }
    ensures { result ≡ any n (may_be_idle kept.now a d) }
{
    let mut found = false;
    for k in 0..n {
        let e = workspace::word(kept, arrivals::ENDS + k);
        let p = workspace::word(kept, arrivals::WAITING + k);
        found |= (e <= a) & (p <= d);
    }
    found
}

// The lowest processor of a set.
fn lowest(set: u16) -> Option<usize>
    ensures { (found_of result ≡ first 16 (member set)) × Below 16 result }
{
    if set == 0 {
        return None;
    }
    Some(set.trailing_zeros() as usize)
}

// The least start so far, and the set of those processors that have it.
#[derive(Clone, Copy)]
pub struct Tied {
    pub least: u32,
    pub set: u16,
}

// One processor more.
fn tie(tied: Tied, k: usize, admissible: bool, value: u32) -> Tied
    requires { k < 16 }
    ensures { result ≡ tie_of tied k admissible value }
{
    if !admissible {
        tied
    } else if tied.set == 0 || value < tied.least {
        Tied {
            least: value,
            set: 1 << k,
        }
    } else if value == tied.least {
        Tied {
            set: tied.set | (1 << k),
            ..tied
        }
    } else {
        tied
    }
}

// Some processor below n is not open: mostly none is left, and then step 3 gives none.
fn some_closed(kept: &[u32], n: usize) -> bool
    requires { (kept_length ≤ length kept.now) × (n ≤ 16) }
    ensures { result ≡ any n (closed_in kept.now) }
{
    let mut found = false;
    for k in 0..n {
        let x = workspace::word(kept, arrivals::OPEN + k);
        found |= x == 0;
    }
    found
}

// A task whose turn it is, t, with the area, what is kept beside it, the starts of t and its A.
#[derive(Clone, Copy)]
struct Turn<'a> {
    w: &'a [u32],
    kept: &'a [u32],
    t: usize,
    starts: Starts,
    a: usize,
    ghost choosing: { Choosing w.now kept.now t },
    ghost started: { Started w.now t starts },
    ghost arrival: { (a ≡ ready_arrival (sheet_in w.now) (schedule_in w.now) t) × (a ≤ latest_start) },
}

impl<'a> Turn<'a> {
    ghost use Rattle.placing.specs.Turn.{sheet_of, schedule_of};

    // When k is done with its tasks.
    fn end_of(&self, k: usize) -> usize
        requires { k < 16 }
        ensures { (result ≡ end_of (sheet_of self.now) (schedule_of self.now) k) × (result < 4294967296) }
    {
        workspace::word(self.kept, arrivals::ENDS + k)
    }

    // The start of t on k.
    fn start_on(&self, k: usize) -> usize
        requires { k < 16 }
        ensures { (result ≡ start_on (sheet_of self.now) (schedule_of self.now) self.now.t k) × (result < 4294967296) }
    {
        self.starts.at[k] as usize
    }

    // t fits k.
    fn fits_on(&self, k: usize) -> bool
        requires { k < 16 }
        ensures { result ≡ fits (sheet_of self.now) (schedule_of self.now) self.now.t k }
    {
        let x = workspace::word(self.kept, arrivals::STORES + k);
        let y = tables::store(self.w, self.t);
        let z = workspace::word(self.kept, arrivals::BYTES + self.t);
        let v = workspace::word(self.kept, arrivals::TURN_BYTES + k);
        x + y + z <= tables::limit(self.w) + v
    }

    // k is open.
    fn is_open(&self, k: usize) -> bool
        requires { k < 16 }
        ensures { result ≡ is_open (sheet_of self.now) (schedule_of self.now) k }
    {
        workspace::word(self.kept, arrivals::OPEN + k) == 1
    }

    // The known links into v, which is not placed.
    fn known_into(&self, v: usize, from: Senders) -> usize
        requires { (v < task_count (sheet_of self.now)) × (placed (schedule_of self.now) v ≡ false) × OnBoard from }
        ensures { (result ≡ known_into (sheet_of self.now) (schedule_of self.now) v from) × (result < 4294967296) }
    {
        match from {
            Senders::One(k) => (workspace::word(self.kept, arrivals::PACKED + (4 * v + k / 4))
                >> (8 * (k % 4)))
                % 256,
            Senders::All => workspace::word(self.kept, arrivals::SEEN + v),
            Senders::Four(j) => workspace::word(self.kept, arrivals::PACKED + (4 * v + j)),
        }
    }

    // The known links into the successors of t.
    fn due_from(&self, from: Senders) -> usize
        requires { OnBoard from }
        ensures { result ≡ sum (link_count (sheet_of self.now)) (due_by (sheet_of self.now) (schedule_of self.now) self.now.t from) }
    {
        let m = tables::links(self.w);
        let mut l = adjacency::first(self.w, End::Source, self.t);
        let mut due: usize = 0;
        while l < m {
            due += self.known_into(tables::target(self.w, l), from);
            l = adjacency::next(self.w, End::Source, l);
        }
        due
    }

    // The known links into v besides.
    fn more_due(&self, x: Counts, v: usize) -> Counts
        requires { (v < task_count (sheet_of self.now)) × (placed (schedule_of self.now) v ≡ false) × Small x }
        ensures { MoreDue (sheet_of self.now) (schedule_of self.now) v x result }
    {
        let a = self.known_into(v, Senders::Four(0));
        let b = self.known_into(v, Senders::Four(1));
        let c = self.known_into(v, Senders::Four(2));
        let d = self.known_into(v, Senders::Four(3));
        Counts {
            a: x.a + a,
            b: x.b + b,
            c: x.c + c,
            d: x.d + d,
        }
    }

    // The known links into the successors of t by the processor that they come from, in one walk.
    fn dues_of(&self) -> Counts
        ensures { DuesTo (sheet_of self.now) (schedule_of self.now) self.now.t (link_count (sheet_of self.now)) result }
    {
        let m = tables::links(self.w);
        let mut l = adjacency::first(self.w, End::Source, self.t);
        let mut x = Counts {
            a: 0,
            b: 0,
            c: 0,
            d: 0,
        };
        while l < m {
            x = self.more_due(x, tables::target(self.w, l));
            l = adjacency::next(self.w, End::Source, l);
        }
        x
    }

    // k is open, and t fits it.
    fn fits_open(&self, k: usize) -> bool
        requires { k < 16 }
        ensures { result ≡ both (is_open (sheet_of self.now) (schedule_of self.now) k) (fits (sheet_of self.now) (schedule_of self.now) self.now.t k) }
    {
        self.is_open(k) & self.fits_on(k)
    }

    // The known links from k into the successors of t, of which d are known from all: a byte holds them, if it holds d.
    fn due_of(&self, d: usize, dues: Counts, k: usize) -> usize
        requires { Dues (sheet_of self.now) (schedule_of self.now) self.now.t d dues × (k < 16) }
        ensures { result ≡ sum (link_count (sheet_of self.now)) (due_by (sheet_of self.now) (schedule_of self.now) self.now.t (Senders.One k)) }
    {
        if d < 256 {
            (four_of(dues, k / 4) >> (8 * (k % 4))) % 256
        } else {
            self.due_from(Senders::One(k))
        }
    }

    // Each successor of each task on k is placed or is a successor of t: no other link from k waits than the p that are due.
    fn is_spent(&self, d: usize, dues: Counts, k: usize, p: usize) -> bool
        requires { Dues (sheet_of self.now) (schedule_of self.now) self.now.t d dues × (k < 16) × (p ≡ get_or self.now.kept.now (waiting_from + k) 0) }
        ensures { result ≡ spent (sheet_of self.now) (schedule_of self.now) self.now.t k }
    {
        self.due_of(d, dues, k) == p
    }

    // The processor that the guard bars for u's sake, or 16. Before its arrival u can start only where its latest message comes from,
    // which is k, so that only there its best start can rise: if t finishes after it.
    fn bars_on(&self, u: usize, a: usize, k: usize) -> usize
        requires u_bound { (u < task_count (sheet_of self.now)) × (a ≡ arrival (sheet_of self.now) (schedule_of self.now) u) × (a ≢ 0) }
        requires k_value { (k ≡ get_or self.now.kept.now (senders_from + u) 0) × (k < 16) }
        ensures { BarsFor (sheet_of self.now) (schedule_of self.now) self.now.t u result }
    {
        let finish = self.start_on(k) + tables::work(self.w, self.t);
        if arrivals::starts_before(self.w, self.kept, u, k, a.min(finish)) {
            return k;
        }
        16
    }

    // .. asked only of a processor that ends before u's arrival: elsewhere nothing is barred.
    fn bars_for(&self, u: usize) -> usize
        requires { u < task_count (sheet_of self.now) }
        ensures { BarsFor (sheet_of self.now) (schedule_of self.now) self.now.t u result }
    {
        let a = readiness::arrival_of(self.w, self.kept, u);
        if a == 0 {
            return 16;
        }
        let k = workspace::word(self.kept, arrivals::SENDERS + u);
        if a <= self.end_of(k) {
            return 16;
        }
        self.bars_on(u, a, k)
    }

    // The same for step 1, which asks only of processors that hold a predecessor of t: mostly u's latest message comes from none of them.
    fn join_bars_for(&self, u: usize) -> usize
        requires { u < task_count (sheet_of self.now) }
        ensures { JoinBarsFor (sheet_of self.now) (schedule_of self.now) self.now.t u result }
    {
        let a = readiness::arrival_of(self.w, self.kept, u);
        if a == 0 {
            return 16;
        }
        let k = workspace::word(self.kept, arrivals::SENDERS + u);
        if workspace::word(self.kept, arrivals::TURN_LINKS + k) == 0 {
            return 16;
        }
        self.bars_for(u)
    }

    // The task for whose sake the guard applies: the first partly ready one, if its priority is higher than t's; q holds the keys.
    fn rival_of(&self, q: &[u64]) -> Option<usize>
        requires { Keyed (sheet_of self.now) (schedule_of self.now) q.now }
        ensures { Rival (sheet_of self.now) (schedule_of self.now) self.now.t (found_of result) × Below (task_count (sheet_of self.now)) result }
    {
        match readiness::first_partly(self.w, self.kept, q) {
            None => None,
            Some(u) => {
                if self.a + schedule::level_of(self.w, self.t)
                    < readiness::priority_of(self.w, self.kept, u)
                {
                    return Some(u);
                }
                None
            }
        }
    }

    // The processor that the guard bars in this turn, or 16.
    fn bars_of(&self, rival: Option<usize>) -> usize
        requires { Rival (sheet_of self.now) (schedule_of self.now) self.now.t (found_of rival) × Below (task_count (sheet_of self.now)) rival }
        ensures { Bars (sheet_of self.now) (schedule_of self.now) self.now.t result }
    {
        match rival {
            None => 16,
            Some(u) => self.bars_for(u),
        }
    }

    // The same for step 1.
    fn join_bars_of(&self, rival: Option<usize>) -> usize
        requires { Rival (sheet_of self.now) (schedule_of self.now) self.now.t (found_of rival) × Below (task_count (sheet_of self.now)) rival }
        ensures { JoinBars (sheet_of self.now) (schedule_of self.now) self.now.t result }
    {
        match rival {
            None => 16,
            Some(u) => self.join_bars_for(u),
        }
    }

    // The key of k, which holds a predecessor of t, in step 1; the guard bars one processor.
    fn join_key(&self, bars: usize, k: usize) -> usize
        requires k_holds { (k < 16) × (holds_predecessor (sheet_of self.now) (schedule_of self.now) self.now.t k ≡ true) }
        requires join_bars { JoinBars (sheet_of self.now) (schedule_of self.now) self.now.t bars }
        ensures { result ≡ join_key (sheet_of self.now) (schedule_of self.now) self.now.t k }
    {
        let x = self.start_on(k);
        let early = (k != bars) & (x < self.a);
        low_key(self.fits_on(k) & early, x, k)
    }

    // Step 1: join. Only where t's links come from, which are mostly fewer than the processors.
    fn join_on(&self, bars: usize) -> Option<usize>
        requires { JoinBars (sheet_of self.now) (schedule_of self.now) self.now.t bars }
        ensures { (found_of result ≡ join (sheet_of self.now) (barred (sheet_of self.now)) (schedule_of self.now) self.now.t) × Below 16 result }
    {
        let n = workspace::word(self.kept, self.t);
        let mut l = adjacency::first(self.w, End::Target, self.t);
        let mut best: usize = 0;
        for _i in 0..n {
            let k = schedule::place(self.w, tables::source(self.w, l));
            best = best.max(self.join_key(bars, k));
            l = adjacency::next(self.w, End::Target, l);
        }
        processor_of(best)
    }

    // The key of k in step 2; a is t's A. Where k ends later, or more links from it wait than are due from all processors (d),
    // which is mostly so, nothing else is looked at.
    fn idle_key(&self, d: usize, dues: Counts, k: usize) -> usize
        requires k_bound { k < 16 }
        requires dues { Dues (sheet_of self.now) (schedule_of self.now) self.now.t d dues }
        ensures { result ≡ idle_key (sheet_of self.now) (schedule_of self.now) self.now.t k }
    {
        let e = self.end_of(k);
        let p = workspace::word(self.kept, arrivals::WAITING + k);
        if (e <= self.a) & (p <= d) && self.is_spent(d, dues, k, p) && self.fits_open(k) {
            high_key(e, k)
        } else {
            0
        }
    }

    // Step 2 over all open processors; d is what is due from all of them.
    fn idle_among(&self, d: usize, dues: Counts) -> Option<usize>
        requires { Dues (sheet_of self.now) (schedule_of self.now) self.now.t d dues }
        ensures { (found_of result ≡ idle (sheet_of self.now) (barred (sheet_of self.now)) (schedule_of self.now) self.now.t) × Below 16 result }
    {
        let n = schedule::opened(self.w);
        let mut best: usize = 0;
        for k in 0..n {
            best = best.max(self.idle_key(d, dues, k));
        }
        processor_of(best)
    }

    // Step 2: idle.
    fn idle_on(&self) -> Option<usize>
        ensures { (found_of result ≡ idle (sheet_of self.now) (barred (sheet_of self.now)) (schedule_of self.now) self.now.t) × Below 16 result }
    {
        let d = self.due_from(Senders::All);
        if may_be_idle(self.kept, schedule::opened(self.w), self.a, d) {
            return self.idle_among(d, self.dues_of());
        }
        None
    }

    // Step 3 may open k.
    fn may_open_on(&self, k: usize) -> bool
        requires { k < 16 }
        ensures { result ≡ may_open (sheet_of self.now) (barred (sheet_of self.now)) (schedule_of self.now) self.now.t k }
    {
        !self.is_open(k) && self.fits_on(k)
    }

    // Step 3 over all processors of the board.
    fn open_among(&self) -> Option<usize>
        ensures { (found_of result ≡ another (sheet_of self.now) (barred (sheet_of self.now)) (schedule_of self.now) self.now.t) × Below 16 result }
    {
        let n = tables::processors(self.w);
        let mut tied = Tied { least: 0, set: 0 };
        for k in 0..n {
            tied = tie(tied, k, self.may_open_on(k), self.starts.at[k]);
        }
        lowest(tied.set)
    }

    // Step 3: the processor that it would open.
    fn open_on(&self) -> Option<usize>
        ensures { (found_of result ≡ another (sheet_of self.now) (barred (sheet_of self.now)) (schedule_of self.now) self.now.t) × Below 16 result }
    {
        if some_closed(self.kept, tables::processors(self.w)) {
            return self.open_among();
        }
        None
    }

    // Processor k may be taken where step 3 would open one, if it is open; the guard bars one processor.
    fn may_share_on(&self, bars: usize, k: usize) -> bool
        requires k_bound { k < 16 }
        requires bars { Bars (sheet_of self.now) (schedule_of self.now) self.now.t bars }
        ensures { result ≡ may_share (sheet_of self.now) (barred (sheet_of self.now)) (schedule_of self.now) self.now.t k }
    {
        let x = self.start_on(k);
        let early = (k != bars) & (x <= self.a);
        self.fits_open(k) & early
    }

    // Between steps 2 and 3: the lowest numbered open processor that starts t by its A.
    fn share_on(&self, bars: usize) -> Option<usize>
        requires { Bars (sheet_of self.now) (schedule_of self.now) self.now.t bars }
        ensures { (found_of result ≡ first (schedule_of self.now).opened (may_share (sheet_of self.now) (barred (sheet_of self.now)) (schedule_of self.now) self.now.t)) × Below 16 result }
    {
        let n = schedule::opened(self.w);
        for k in 0..n {
            if self.may_share_on(bars, k) {
                return Some(k);
            }
        }
        None
    }

    // Step 4: last resort.
    fn last_on(&self) -> Option<usize>
        ensures { (found_of result ≡ last_resort (sheet_of self.now) (barred (sheet_of self.now)) (schedule_of self.now) self.now.t) × Below 16 result }
    {
        let n = schedule::opened(self.w);
        let mut best: usize = 0;
        for k in 0..n {
            let x = self.start_on(k);
            best = best.max(low_key(self.fits_open(k), x, k));
        }
        processor_of(best)
    }

    // Where step 3 would open `next`: an open processor that starts t as early, or else that one.
    fn share_or_open(&self, rival: Option<usize>, next: usize) -> Option<usize>
        requires rival { Rival (sheet_of self.now) (schedule_of self.now) self.now.t (found_of rival) × Below (task_count (sheet_of self.now)) rival }
        requires next_value { (some next ≡ another (sheet_of self.now) (barred (sheet_of self.now)) (schedule_of self.now) self.now.t) × (next < 16) }
        ensures { (found_of result ≡ or_else (share (sheet_of self.now) (barred (sheet_of self.now)) (schedule_of self.now) self.now.t) (another (sheet_of self.now) (barred (sheet_of self.now)) (schedule_of self.now) self.now.t)) × Below 16 result }
    {
        let bars = self.bars_of(rival);
        match self.share_on(bars) {
            Some(k) => Some(k),
            None => Some(next),
        }
    }

    // Steps 3 and 4, and the one before them, where steps 1 and 2 give none.
    fn without_idle(&self, rival: Option<usize>) -> Option<usize>
        requires { Rival (sheet_of self.now) (schedule_of self.now) self.now.t (found_of rival) × Below (task_count (sheet_of self.now)) rival }
        ensures { (found_of result ≡ or_else (share (sheet_of self.now) (barred (sheet_of self.now)) (schedule_of self.now) self.now.t) (or_else (another (sheet_of self.now) (barred (sheet_of self.now)) (schedule_of self.now) self.now.t) (last_resort (sheet_of self.now) (barred (sheet_of self.now)) (schedule_of self.now) self.now.t))) × Below 16 result }
    {
        match self.open_on() {
            Some(next) => self.share_or_open(rival, next),
            None => self.last_on(),
        }
    }

    // Steps 2 to 4, where nothing is joined.
    fn without_join(&self, rival: Option<usize>) -> Option<usize>
        requires rival { Rival (sheet_of self.now) (schedule_of self.now) self.now.t (found_of rival) × Below (task_count (sheet_of self.now)) rival }
        requires none_value { none ≡ join (sheet_of self.now) (barred (sheet_of self.now)) (schedule_of self.now) self.now.t }
        ensures { (found_of result ≡ choice (sheet_of self.now) (barred (sheet_of self.now)) true (schedule_of self.now) self.now.t) × Below 16 result }
    {
        match self.idle_on() {
            Some(k) => Some(k),
            None => self.without_idle(rival),
        }
    }
}

// The processor for t, by its starts; q holds the keys.
pub fn choice_of(w: &[u32], kept: &[u32], q: &[u64], t: usize, starts: Starts) -> Option<usize>
    requires choosing { Choosing w.now kept.now t × Started w.now t starts }
    requires keyed { Keyed (sheet_in w.now) (schedule_in w.now) q.now }
    ensures { (found_of result ≡ choice (sheet_in w.now) (barred (sheet_in w.now)) true (schedule_in w.now) t) × Below 16 result }
{
    let a = readiness::ready_arrival(w, kept, t);
    let turn = Turn {
        w,
        kept,
        t,
        starts,
        a,
    };
    let rival = turn.rival_of(q);
    let bars = turn.join_bars_of(rival);
    match turn.join_on(bars) {
        Some(k) => Some(k),
        None => turn.without_join(rival),
    }
}
