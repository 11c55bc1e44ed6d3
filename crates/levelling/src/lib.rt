// Circles and levels of a sheet that stands in the work area, and a sheet opened there with them.
#![tactic(auto)]

ghost use Rattle.sheet.specs.Tables.{Loaded};
ghost use Rattle.levelling.specs.Found.{LevelsAre};

use adjacency::End;
use sheet::tables;
use topological_order::peel;

pub mod open;
mod search;

// The lowest task on a circle (10), or, where there is none, the level of each task in its word.
// Takes time in proportion to tasks and links where there is no circle.
pub fn levels(w: &mut [u32]) -> Option<usize>
    requires { Loaded w.old }
    ensures { LevelsAre w.old w.new result }
{
    adjacency::chain(w, End::Target);
    adjacency::chain(w, End::Source);
    let k = peel::peel(w);
    let n = tables::tasks(w);
    if k == n {
        return None;
    }
    search::find(w)
}
