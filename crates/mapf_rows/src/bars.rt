use crate::expect::expect_same;
use mapf_constraints::{Bar, BarTable, ListBars, TickBars};
use mapf_model::{Cell, OutOfMemory, Tick};
use std::alloc::Global;
use std::process::Abort;
use std::test::Fail;

// A map of two cells: the move to the second one is forbidden at tick 7, and the second one at tick 5.
fn second_cell_barred<B: BarTable>(alloc: Global) -> Result<B, OutOfMemory> {
    let mut table = B::empty(alloc);
    table.add(Bar::Move {
        from: Cell(0),
        to: Cell(1),
        tick: 7,
    })?;
    table.add(Bar::Cell {
        cell: Cell(1),
        tick: 5,
    })?;
    Ok(table)
}

// The last ticks of both cells, the horizon, whether the second cell is forbidden at 5 and at 8 and the first at 5, and
// whether the move to the second cell is at 7 and at 6 and the move back at 7.
type Seen = ([Option<Tick>; 2], Tick, [bool; 3], [bool; 3]);

fn seen<B: BarTable>(table: &B) -> Seen {
    let last = [table.last_on(Cell(0)), table.last_on(Cell(1))];
    let cells = [
        table.bars_cell(Cell(1), 5),
        table.bars_cell(Cell(1), 8),
        table.bars_cell(Cell(0), 5),
    ];
    let moves = [
        table.bars_move(Cell(0), Cell(1), 7),
        table.bars_move(Cell(0), Cell(1), 6),
        table.bars_move(Cell(1), Cell(0), 7),
    ];
    (last, table.horizon(), cells, moves)
}

fn expect_what_is_barred<B: BarTable>(rt: &impl Abort, alloc: Global) -> Result<(), OutOfMemory> {
    let table = second_cell_barred::<B>(alloc)?;
    let bars = [true, false, false];
    let expected: Seen = ([None, Some(5)], 8, bars, bars);
    expect_same(rt, &"table", &seen(&table), &expected);
    expect_same(rt, &"copy", &seen(&table.copy()?), &expected);
    Ok(())
}

#[test]
fn both_tables_know_what_is_barred(rt: HostRuntime) -> Result<(), Fail> {
    expect_what_is_barred::<ListBars>(&rt, rt.alloc())?;
    expect_what_is_barred::<TickBars>(&rt, rt.alloc())?;
    Ok(())
}
