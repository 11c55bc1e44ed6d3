// A sheet for who reads its numbers from its bytes: its counts, in their ranges, and where its tasks and its links begin.
ghost use Rattle.std.specs.Prelude.{◌≡◌, ◌<◌, ◌≤◌, ◌+◌, ◌*◌};
ghost use Rattle.sheet.specs.Tables.{Loaded};
ghost use Rattle.sheet.specs.Sizes.{task_size};

use sheet::{LINK_SIZE, TASK_SIZE};

#[derive(Clone, Copy)]
pub struct View {
    pub processors: usize,
    pub limit: usize,
    pub unpacking: usize,
    pub cube: bool,
    pub tasks: usize,
    pub links: usize,
    pub front: usize,
    pub middle: usize,
    ghost few_processors: { processors ≤ 16 },
    ghost few_tasks: { tasks ≤ 256 },
    ghost few_links: { links ≤ 1024 },
    ghost unpacks: { unpacking < 65536 },
    ghost near: { front ≤ 65536 },
    ghost behind: { middle ≡ front + task_size * tasks },
}

impl View {
    ghost use Rattle.admission.specs.Fields.{work_at, store_at, source_at, target_at, cost_at};
    ghost use Rattle.admission.specs.Views.{ViewIs};

    // The view of the sheet in the tables of the work area.
    pub fn of_tables(work: &[u32]) -> View
        requires { Loaded work.now }
        ensures { ViewIs work.now result }
    {
        let tasks = sheet::tables::tasks(work);
        let unpacking = sheet::tables::unpacking(work);
        let cube = sheet::tables::cube(work);
        let front = sheet::front(unpacking, cube);
        View {
            processors: sheet::tables::processors(work),
            limit: sheet::tables::limit(work),
            unpacking,
            cube,
            tasks,
            links: sheet::tables::links(work),
            front,
            middle: front + TASK_SIZE * tasks,
        }
    }

    // Where the work of task t stands.
    pub fn work_at(self, t: usize) -> usize
        requires { t < 65536 }
        ensures { result ≡ work_at self.front t }
    {
        self.front + 1 + TASK_SIZE * t
    }

    // Where the store of task t stands.
    pub fn store_at(self, t: usize) -> usize
        requires { t < 65536 }
        ensures { result ≡ store_at self.front t }
    {
        self.front + 3 + TASK_SIZE * t
    }

    // Where the source of link l stands.
    pub fn source_at(self, l: usize) -> usize
        requires { l < 65536 }
        ensures { result ≡ source_at self.middle l }
    {
        self.middle + 1 + LINK_SIZE * l
    }

    // Where the target of link l stands.
    pub fn target_at(self, l: usize) -> usize
        requires { l < 65536 }
        ensures { result ≡ target_at self.middle l }
    {
        self.middle + 2 + LINK_SIZE * l
    }

    // Where the cost of link l stands; its bytes stand two behind.
    pub fn cost_at(self, l: usize) -> usize
        requires { l < 65536 }
        ensures { result ≡ cost_at self.middle l }
    {
        self.middle + 3 + LINK_SIZE * l
    }
}
