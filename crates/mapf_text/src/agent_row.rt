//! How a row of a scenario becomes an agent, for the reader of scenarios.
ghost use Rattle.std.specs.Prelude.{◌≡◌, ◌≢◌, ℕ, [], ◌∷◌, length, Ok, Err, MatchOption, MatchResult};
ghost use Rattle.mapf_text.specs.Words.{words_of};
ghost use Rattle.mapf_text.specs.AgentRows.{HasNumbers, IsCellAt, IsNumber, SpellsAgent, IsFirstNoNumber};
ghost use Rattle.mapf_text.specs.AgentRows.{HasRowFault, numbered};

use crate::decimal::is_decimal;
use crate::number::read_number;
use crate::scenario_fault::ScenFault;
use crate::word::next_word;
use mapf_model::{Agent, Cell, Grid};

// The nine words of a row.
#[derive(Clone, Copy)]
struct Fields<'a> {
    bucket: &'a [u8],
    map_name: &'a [u8],
    width: &'a [u8],
    height: &'a [u8],
    start_x: &'a [u8],
    start_y: &'a [u8],
    goal_x: &'a [u8],
    goal_y: &'a [u8],
    length: &'a [u8],
}

// The numbers of a row, for the map and the agent.
#[derive(Clone, Copy)]
struct Numbers {
    width: u32,
    height: u32,
    start_x: u32,
    start_y: u32,
    goal_x: u32,
    goal_y: u32,
}

/// Returns the agent of a row of a scenario, which is agent number `row`.
pub fn read_row(line: &[u8], grid: &Grid, row: u32) -> Result<Agent, ScenFault>
    ensures { MatchResult result (SpellsAgent grid.now (words_of line.now))
        (HasRowFault grid.now (words_of line.now) row) }
{
    let Some(fields) = fields_of(line) else {
        return Err(ScenFault::S2 { row });
    };
    let numbers = match numbers_of(&fields) {
        Ok(numbers) => numbers,
        Err(field) => return Err(ScenFault::S3 { row, field }),
    };
    if numbers.width != grid.width() || numbers.height != grid.height() {
        return Err(ScenFault::S4 { row });
    }
    let Some(start) = free_cell(grid, numbers.start_x, numbers.start_y) else {
        return Err(ScenFault::S5 { row });
    };
    let Some(goal) = free_cell(grid, numbers.goal_x, numbers.goal_y) else {
        return Err(ScenFault::S5 { row });
    };
    if !is_decimal(fields.length) {
        return Err(ScenFault::S6 { row });
    }
    Ok(Agent { start, goal })
}

fn fields_of(line: &[u8]) -> Option<Fields<'_>>
    ensures { MatchOption result (length (words_of line.now) ≢ 9) (λ f. words_of line.now
        ≡ f.bucket.now ∷ f.map_name.now ∷ f.width.now ∷ f.height.now ∷ f.start_x.now ∷ f.start_y.now
        ∷ f.goal_x.now ∷ f.goal_y.now ∷ f.length.now ∷ []) }
{
    let (bucket, rest) = next_word(line)?;
    let (map_name, rest) = next_word(rest)?;
    let (width, rest) = next_word(rest)?;
    let (height, rest) = next_word(rest)?;
    let (start_x, rest) = next_word(rest)?;
    let (start_y, rest) = next_word(rest)?;
    let (goal_x, rest) = next_word(rest)?;
    let (goal_y, rest) = next_word(rest)?;
    let (length, rest) = next_word(rest)?;
    if next_word(rest).is_some() {
        return None;
    }
    Some(Fields {
        bucket,
        map_name,
        width,
        height,
        start_x,
        start_y,
        goal_x,
        goal_y,
        length,
    })
}

// Returns the numbers of a row, or the first field that isn't a number, counted from 1.
fn numbers_of(fields: &Fields) -> Result<Numbers, u32>
    ensures { let f = fields.now in
        let words = f.bucket.now ∷ f.map_name.now ∷ f.width.now ∷ f.height.now ∷ f.start_x.now ∷ f.start_y.now
        ∷ f.goal_x.now ∷ f.goal_y.now ∷ f.length.now ∷ [] in
        MatchResult result (HasNumbers words) (IsFirstNoNumber (numbered words)) }
{
    number_in(fields.bucket, 1)?;
    let width = number_in(fields.width, 3)?;
    let height = number_in(fields.height, 4)?;
    let start_x = number_in(fields.start_x, 5)?;
    let start_y = number_in(fields.start_y, 6)?;
    let goal_x = number_in(fields.goal_x, 7)?;
    let goal_y = number_in(fields.goal_y, 8)?;
    Ok(Numbers {
        width,
        height,
        start_x,
        start_y,
        goal_x,
        goal_y,
    })
}

// Returns the number in a field, or the field.
fn number_in(word: &[u8], field: u32) -> Result<u32, u32>
    ensures { MatchResult result (IsNumber word.now) (λ at. (at ≡ field) × ((n : ℕ) → IsNumber word.now n → ⊥)) }
{
    match read_number(word) {
        Ok(n) => Ok(n),
        Err(_) => Err(field),
    }
}

fn free_cell(grid: &Grid, x: u32, y: u32) -> Option<Cell>
    ensures { MatchOption result ((cell : ℕ) → IsCellAt grid.now x y cell → ⊥) (IsCellAt grid.now x y) }
{
    let cell = grid.cell(x, y)?;
    if grid.is_free(cell) { Some(cell) } else { None }
}
