// An arrangement of tasks as one number: a digit for each task, the newest lowest. A digit is the task's number, and more by `MARK` where the task opens a
// programme.
ghost use Rattle.std.specs.Prelude.{◌≡◌, ◌≤◌};
ghost use Rattle.least.specs.Written.{among};
ghost use Rattle.search.specs.Codes.{tasks_of, LastIs};

pub const BASE: usize = 16;

pub const MARK: usize = 8;

// Whether t is one of the tasks.
pub fn stands(code: usize, len: usize, t: usize) -> bool
    ensures { result ≡ among t (tasks_of len code) }
{
    let mut c = code;
    for _ in 0..len {
        if t == c % MARK {
            return true;
        }
        c /= BASE;
    }
    false
}

// The last programme: how many tasks it has, and the number without it.
#[derive(Clone, Copy)]
pub struct Last {
    pub tasks: usize,
    pub front: usize,
}

pub fn last_programme(code: usize, len: usize) -> Last
    requires { len ≤ 6 }
    ensures { LastIs code len result }
{
    if len == 0 {
        return Last {
            tasks: 0,
            front: code,
        };
    }
    if code / MARK % 2 == 1 {
        return Last {
            tasks: 1,
            front: code / BASE,
        };
    }
    let p = last_programme(code / BASE, len - 1);
    Last {
        tasks: p.tasks + 1,
        ..p
    }
}
