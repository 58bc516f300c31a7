//! How one more constraint changes the last tick at which a cell is forbidden, and the horizon. Both kinds of tables
//! call it.
ghost use Rattle.std.specs.Prelude.{◌≡◌, ◌<◌, ◌∷◌, max, List};
ghost use Rattle.std.specs.Option.{option_map_or};
ghost use Rattle.mapf_model.specs.declared.bar.Bar.{Bar};
ghost use Rattle.mapf_model.specs.Laws.{AreSameBars};
ghost use Rattle.mapf_model.specs.Limits.{split_ticks};
ghost use Rattle.mapf_constraints.specs.BarSets.{bar_tick, IsHorizon, IsLastOn};

use mapf_model::{Bar, Cell, Tick};

/// Returns the greatest tick at which the cell is forbidden, once the constraint is added.
pub fn last_with(last: Option<Tick>, bar: &Bar, cell: Cell) -> Option<Tick>
    ensures { (before after : List Bar) → IsLastOn before cell last
        → AreSameBars after (bar.now ∷ before) → IsLastOn after cell result }
{
    match bar {
        Bar::Cell { cell: on, tick } if *on == cell => Some(latest(last, *tick)),
        _ => last,
    }
}

/// Returns the greater of the tick and the one before, if there is one.
pub fn latest(last: Option<Tick>, tick: Tick) -> Tick
    ensures { result ≡ option_map_or (λ n. max n tick) last tick }
{
    match last {
        Some(last) => last.max(tick),
        None => tick,
    }
}

/// Returns the least tick greater than those of all constraints, once the constraint is added.
pub fn horizon_with(horizon: Tick, bar: &Bar) -> Tick
    requires { bar_tick bar.now < split_ticks }
    ensures { (before after : List Bar) → IsHorizon before horizon
        → AreSameBars after (bar.now ∷ before) → IsHorizon after result }
{
    horizon.max(tick(bar) + 1)
}

/// Returns the tick of the constraint.
pub fn tick(bar: &Bar) -> Tick
    ensures { result ≡ bar_tick bar.now }
{
    match bar {
        Bar::Cell { cell: _, tick }
        | Bar::Move {
            from: _,
            to: _,
            tick,
        } => *tick,
    }
}
