// The level of one task, by the formula of the thesis: L(x) = τ_x + the greatest of c_xj + L(j) over its successors j.
ghost use Rattle.std.specs.Prelude.{◌≡◌, ◌+◌, ◌<◌, set};
ghost use Rattle.workspace.specs.Area.{levels_at};
ghost use Rattle.folds.specs.Folds.{greatest};
ghost use Rattle.sheet.specs.Sheet.{task_count, link_count, work_of};
ghost use Rattle.sheet.specs.Tables.{sheet_in};
ghost use Rattle.graph.specs.Graph.{level_by};
ghost use Rattle.adjacency.specs.Chains.{Chained};
ghost use Rattle.adjacency.specs.declared.End.TheVariants.{Source};
ghost use Rattle.topological_order.specs.Words.{Held};
ghost use Rattle.topological_order.specs.Peeling.{level_in, Moderate};

use adjacency::End;
use sheet::tables;
use workspace::LEVELS;

// The greatest of cost and the successor's level over the links out of v; 0 without one.
fn beyond(w: &[u32], v: usize) -> usize
    requires held { Held w.now }
    requires chained { Chained Source (sheet_in w.now) w.now }
    requires v_bound { v < task_count (sheet_in w.now) }
    ensures { result ≡ greatest (link_count (sheet_in w.now)) (level_by (sheet_in w.now) (level_in w.now) v) }
{
    let m = tables::links(w);
    let mut best: usize = 0;
    let mut l = adjacency::first(w, End::Source, v);
    while l < m {
        let x = workspace::word(w, LEVELS + tables::target(w, l));
        let c = tables::cost(w, l);
        best = best.max(c + x);
        l = adjacency::next(w, End::Source, l);
    }
    best
}

// The level of v is set, from those of its successors.
pub fn set(w: &mut [u32], v: usize)
    requires held { Held w.old }
    requires chained { Chained Source (sheet_in w.old) w.old × (v < task_count (sheet_in w.old)) }
    requires moderate { Moderate (sheet_in w.old) v w.old }
    ensures { w.new ≡ set w.old (levels_at + v) (work_of (sheet_in w.old) v + greatest (link_count (sheet_in w.old)) (level_by (sheet_in w.old) (level_in w.old) v)) }
{
    let x = beyond(w, v);
    w[LEVELS + v] = (tables::work(w, v) + x) as u32;
}
