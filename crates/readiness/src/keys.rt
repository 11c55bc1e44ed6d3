// A table of 512 keys, and behind them the greatest of each block of sixteen, so that the greatest of half the table takes sixteen steps.
ghost use Rattle.std.specs.Prelude.{◌≡◌, ◌+◌, ◌<◌, ◌≤◌, length, get_or};
ghost use Rattle.folds.specs.Folds.{greatest};
ghost use Rattle.readiness.specs.Keys.{key_by, Blocked, Changed};

// The greatest of the sixteen from `at` on, as the greatest of four quarters, so that none waits for another.
pub fn greatest_of(q: &[u64], at: usize) -> u64
    requires { at + 16 ≤ length q.now }
    ensures { result ≡ greatest 16 (key_by q.now at) }
{
    let mut a: u64 = 0;
    let mut b: u64 = 0;
    let mut c: u64 = 0;
    let mut d: u64 = 0;
    for i in 0..4 {
        a = a.max(q[at + i]);
        b = b.max(q[at + 4 + i]);
        c = c.max(q[at + 8 + i]);
        d = d.max(q[at + 12 + i]);
    }
    a.max(b).max(c.max(d))
}

// Key i becomes x. Its block is searched anew only where its greatest may have left it.
pub fn put(q: &mut [u64], i: usize, x: u64)
    requires blocked { Blocked q.old }
    requires i_bound { i < 512 }
    ensures { Changed q.old q.new i x }
{
    let b = i / 16;
    let old = q[i];
    let most = q[512 + b];
    q[i] = x;
    if most <= x {
        q[512 + b] = x;
    } else if old == most {
        q[512 + b] = greatest_of(q, 16 * b);
    }
}

// Key i rises to x, and its block's greatest with it; without a branch, since neither can be foretold.
pub fn raise(q: &mut [u64], i: usize, x: u64)
    requires blocked { Blocked q.old }
    requires i_bound { (i < 512) × (get_or q.old i 0 ≤ x) }
    ensures { Changed q.old q.new i x }
{
    let b = i / 16;
    let most = q[512 + b];
    q[i] = x;
    q[512 + b] = most.max(x);
}
