//! How the lines of price lists are read, by their first words.
ghost use Rattle.std.specs.Prelude.{◌≡◌};
ghost use Rattle.mapf_lemma_texts.specs.LineReading.{read_prices, read_list, read_cell_price, read_edge_price};
ghost use Rattle.mapf_lemma_texts.specs.LineReading.{read_price, read_price_line};

use crate::line::LemmaLine;
use crate::ranges::{GREATEST_PRICE, GREATEST_WEIGHT, MOST_LISTED};
use crate::sizes::LineSizes;
use mapf_fields::{LineFault, field, from_one_to, last, pair, strip, up_to, within};
use mapf_lemmas::Price;
use mapf_model::limits::LAST_SPLIT_TICK;

#[tactic(auto, unfolding(crate::specs::LineReading::read_prices))]
fn prices(rest: &[u8]) -> Result<LemmaLine, LineFault>
    ensures { result ≡ read_prices rest.now }
{
    let lists = last(b' ', rest)?;
    Ok(LemmaLine::Prices(within(0, MOST_LISTED, lists)?))
}

#[tactic(auto, unfolding(crate::specs::LineReading::read_list))]
fn list(rest: &[u8]) -> Result<LemmaLine, LineFault>
    ensures { result ≡ read_list rest.now }
{
    let (unit, rest) = field(b' ', rest)?;
    let prices = last(b' ', rest)?;
    Ok(LemmaLine::List {
        unit: from_one_to(GREATEST_WEIGHT, unit)?,
        prices: within(0, MOST_LISTED, prices)?,
    })
}

#[tactic(auto, unfolding(crate::specs::LineReading::read_cell_price))]
fn cell_price(rest: &[u8], sizes: &LineSizes) -> Result<LemmaLine, LineFault>
    ensures { result ≡ read_cell_price sizes.now rest.now }
{
    let (x, y, rest) = pair(rest)?;
    let (tick, rest) = field(b' ', rest)?;
    let amount = last(b' ', rest)?;
    Ok(LemmaLine::Price(Price::Cell {
        cell: sizes.cell(x, y)?,
        tick: up_to(LAST_SPLIT_TICK, tick)?,
        amount: from_one_to(GREATEST_PRICE, amount)?,
    }))
}

#[tactic(auto, unfolding(crate::specs::LineReading::read_edge_price))]
fn edge_price(rest: &[u8], sizes: &LineSizes) -> Result<LemmaLine, LineFault>
    ensures { result ≡ read_edge_price sizes.now rest.now }
{
    let (from_x, from_y, rest) = pair(rest)?;
    let (to_x, to_y, rest) = pair(rest)?;
    let (tick, rest) = field(b' ', rest)?;
    let amount = last(b' ', rest)?;
    Ok(LemmaLine::Price(Price::Edge {
        from: sizes.cell(from_x, from_y)?,
        to: sizes.cell(to_x, to_y)?,
        tick: up_to(LAST_SPLIT_TICK, tick)?,
        amount: from_one_to(GREATEST_PRICE, amount)?,
    }))
}

#[tactic(auto, unfolding(crate::specs::LineReading::read_price))]
fn price(rest: &[u8], sizes: &LineSizes) -> Result<LemmaLine, LineFault>
    ensures { result ≡ read_price sizes.now rest.now }
{
    match cell_price(rest, sizes) {
        Err(LineFault::Shape) => edge_price(rest, sizes),
        read => read,
    }
}

/// Reads a line of price lists. `LineFault::Shape` if the bytes begin with no word of these lines.
#[tactic(auto, unfolding(crate::specs::LineReading::read_price_line))]
pub fn price_line(bytes: &[u8], sizes: &LineSizes) -> Result<LemmaLine, LineFault>
    ensures { result ≡ read_price_line sizes.now bytes.now }
{
    if let Some(rest) = strip(bytes, b"prices") {
        return prices(rest);
    }
    if let Some(rest) = strip(bytes, b"price") {
        return price(rest, sizes);
    }
    if let Some(rest) = strip(bytes, b"list") {
        return list(rest);
    }
    Err(LineFault::Shape)
}
