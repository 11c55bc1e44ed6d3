// A queue of tasks, each at most once, with the place of each: it stands where the links of a task were counted.
ghost use Rattle.std.specs.Prelude.{◌≡◌, ◌+◌, ◌<◌, ◌≤◌, length};
ghost use Rattle.workspace.specs.Area.{fixed};
ghost use Rattle.topological_order.specs.Words.{pushed};

use workspace::{MARKS, QUEUE};

pub fn push(w: &mut [u32], k: usize, u: usize)
    requires { (fixed ≤ length w.old) × (k < 256) × (u < 256) }
    ensures { w.new ≡ pushed w.old k u }
{
    w[QUEUE + k] = u as u32;
    w[MARKS + u] = (65536 * (256 - k)) as u32;
}
