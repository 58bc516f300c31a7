//! The price lists of a certificate, by their numbers. The judge of parts adds each list that is read, and the judges
//! of lemmas and of leaves look lists up.
ghost use Rattle.std.specs.Prelude.{◌≡◌, ◌++◌, ◌∷◌, ◌≤◌, ℕ, [], All, None, OnOk, IfErr, length};
ghost use Rattle.mapf_cases.specs.Leaves.{AreTotalsOf, IsListIn, IsUnitInRange};
ghost use Rattle.mapf_lemmas.specs.Prices.{IsPriceOn, no_list};
ghost use Rattle.mapf_lemmas.specs.Statements.{IsListOf};
ghost use Rattle.mapf_lemma_checker.specs.Faults.{IsRefusedFor};
ghost use Rattle.mapf_lemma_checker.specs.LemmaParts.{AreCellPricesSmall, IsPartOf};
ghost use Rattle.mapf_lemma_texts.specs.declared.part.Part.TheVariants as parts;
ghost use Rattle.mapf_single_labels.specs.Ranges.{IsListInRange};

use crate::constraints::line_at;
use crate::fault::{LemmaFault, LemmaRefusal};
use mapf_cases::ListTotal;
use mapf_lemmas::{Price, PriceList};
use mapf_model::{Grid, OutOfMemory, Problem};
use mapf_single_labels::{PriceTable, is_price_on};
use std::alloc::Global;
use std::marker::Model;

/// The price lists that were read.
#[derive(Drop)]
pub struct PriceLists {
    alloc: Global,
    tables: Vec<PriceTable>,
    totals: Vec<ListTotal>,
    // The table for lemmas without a list.
    none: PriceTable,
}

impl Model for PriceLists {
    ghost use Rattle.std.specs.Prelude.{List};
    ghost use Rattle.mapf_lemmas.specs.Prices.{PriceList};
    ghost use Rattle.mapf_lemma_checker.specs.Lists.{AreKept};

    ghost Value = { List PriceList };

    ghost view = { λ lists. lists.tables.items };

    ghost invariant = { λ lists. AreKept lists.tables.items lists.totals.items lists.none };
}

impl PriceLists {
    /// Returns no lists.
    pub fn new(alloc: Global) -> PriceLists
        ensures { result ≡ [] }
    {
        PriceLists {
            alloc,
            tables: Vec::new(alloc),
            totals: Vec::new(alloc),
            none: PriceTable::none(alloc),
        }
    }

    /// Judges a list that begins in this line (rule 1), and adds it.
    pub fn add(&mut self, problem: &Problem, list: PriceList, line: u64) -> Result<(), LemmaFault>
        requires part { (lists : ℕ) × IsPartOf problem.now lists (parts.List list) }
        ensures proper { OnOk result (All (IsPriceOn problem.now.grid) list.prices) }
        ensures added { OnOk result (self.new ≡ self.old ++ list ∷ []) }
        ensures refused { IfErr result (IsRefusedFor (All (IsPriceOn problem.now.grid) list.prices → ⊥)) }
    {
        judge_prices(problem.grid(), &list.prices, line.saturating_add(1))?;
        self.keep(list)?;
        Ok(())
    }

    // Adds a list.
    fn keep(&mut self, list: PriceList) -> Result<(), OutOfMemory>
        requires range { IsListInRange list }
        requires positive { 1 ≤ list.unit }
        requires small { AreCellPricesSmall list }
        ensures { OnOk result (self.new ≡ self.old ++ list ∷ []) }
    {
        self.tables.reserve(1)?;
        self.totals.reserve(1)?;
        let unit = list.unit;
        let table = PriceTable::of(self.alloc, list)?;
        let total = table.total();
        self.tables.push_reserved(table);
        self.totals.push_reserved(ListTotal { unit, total });
        Ok(())
    }

    /// Returns the table of the list with this number, or that for lemmas without a list.
    pub fn table(&self, list_number: Option<u64>) -> &PriceTable
        requires { IsListIn (length self.now) list_number }
        ensures is { IsListOf self.now list_number result.now }
        ensures plain { list_number ≡ None → result.now ≡ no_list }
        ensures small { AreCellPricesSmall result.now }
    {
        match list_number {
            Some(number) => &self.tables[number as usize],
            None => &self.none,
        }
    }

    /// Returns what a tick is worth in each list, and the sum of its prices.
    pub fn totals(&self) -> &[ListTotal]
        ensures totals { AreTotalsOf self.now result.now }
        ensures units { All IsUnitInRange result.now }
    {
        &self.totals
    }
}

// Checks that the cells of the prices, of which the first stands in this line, are free, and adjacent if there are two.
fn judge_prices(grid: &Grid, prices: &[Price], line: u64) -> Result<(), LemmaFault>
    ensures ok { OnOk result (All (IsPriceOn grid.now) prices.now) }
    ensures refused { IfErr result (IsRefusedFor (All (IsPriceOn grid.now) prices.now → ⊥)) }
{
    for (k, price) in prices.iter().enumerate() {
        if !is_price_on(grid, price) {
            return Err(LemmaFault::Refused(LemmaRefusal::C10(line_at(line, k))));
        }
    }
    Ok(())
}
