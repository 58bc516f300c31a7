//! What a table of one agent's constraints answers. The search for one agent takes any such table.
ghost use Rattle.std.specs.Prelude.{◌≡◌, ◌≢◌, ◌<◌, ◌≤◌, ◌↔◌, ◌∷◌, [], List, IfOk, OnErr, OnOk, IsTrue, Contains, false};
ghost use Rattle.mapf_model.specs.declared.bar.Bar.{Bar};
ghost use Rattle.mapf_model.specs.Bars.{IsBar, AreBars};
ghost use Rattle.mapf_model.specs.Laws.{AreSameBars};
ghost use Rattle.mapf_model.specs.Limits.{split_ticks};
ghost use Rattle.mapf_constraints.specs.BarSets.{arrival, bar_tick, IsHorizon, IsLastOn};

use mapf_model::{Bar, Cell, OutOfMemory, Tick};
use std::alloc::Global;

/// A finite set of constraints of one agent, all of them at ticks below `SPLIT_TICKS`.
pub trait BarTable: Drop {
    /// The constraints. Only which they are matters, not their order.
    ghost bars: { Self → List Bar };

    /// Returns a table without constraints. The table keeps the allocator.
    fn empty(alloc: Global) -> Self
        ensures { bars result ≡ [] };

    /// Returns whether a vertex constraint forbids the cell at the tick.
    fn bars_cell(&self, cell: Cell, tick: Tick) -> bool
        ensures { IsTrue result ↔ Contains (bars self.now) (Bar.Cell cell tick) };

    /// Returns whether an edge constraint forbids the move that leaves `from` at the tick and is at `to` one tick
    /// later.
    fn bars_move(&self, from: Cell, to: Cell, tick: Tick) -> bool
        ensures { IsTrue result ↔ Contains (bars self.now) (Bar.Move from to tick) };

    /// Returns the greatest tick at which the cell is forbidden, None if it never is.
    fn last_on(&self, cell: Cell) -> Option<Tick>
        ensures { IsLastOn (bars self.now) cell result };

    /// Returns the least tick greater than the ticks of all constraints, 0 if there are none. It is at most
    /// `SPLIT_TICKS`.
    fn horizon(&self) -> Tick
        ensures horizon { IsHorizon (bars self.now) result }
        ensures early { result ≤ split_ticks }
        ensures bars { AreBars (bars self.now) };

    /// Returns false only if no constraint is at the tick. True tells nothing.
    fn may_bar_at(&self, tick: Tick) -> bool
        ensures { result ≡ false → (bar : Bar) → Contains (bars self.now) bar → bar_tick bar ≢ tick }
    {
        true
    }

    /// Returns false only if no vertex constraint forbids the cell at the tick, and no edge constraint forbids a move
    /// that ends there then. True tells nothing.
    fn may_bar_arrival(&self, to: Cell, tick: Tick) -> bool
        ensures { result ≡ false → (bar : Bar) → Contains (bars self.now) bar → arrival bar ≢ (to, tick) }
    {
        true
    }

    /// Adds a constraint. If the set has it already, or memory runs out, the set is as before.
    fn add(&mut self, bar: Bar) -> Result<(), OutOfMemory>
        requires early { bar_tick bar < split_ticks }
        requires bar { IsBar bar }
        ensures added { OnOk result (AreSameBars (bars self.new) (bar ∷ bars self.old)) }
        ensures refused { OnErr result (AreSameBars (bars self.new) (bars self.old)) };

    /// Removes all constraints. Their memory is reused.
    fn clear(&mut self)
        ensures { bars self.new ≡ [] };

    /// Returns a table of the same constraints.
    fn copy(&self) -> Result<Self, OutOfMemory>
        ensures { IfOk result (λ copy. AreSameBars (bars copy) (bars self.now)) };
}
