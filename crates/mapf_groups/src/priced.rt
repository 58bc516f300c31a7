//! The bound by prices, with the parts of a certificate that shows it.
use mapf_lemma_texts::{OneLemma, Part, TwoLemma};
use mapf_lemmas::{Group, LeafUses, PriceList, Use};
use mapf_model::{OutOfMemory, Problem};
use mapf_prices::{Budgets, FULL_BUDGETS, Known, PriceBound, PricedLemma, price_bound};
use std::alloc::Global;

/// A bound by prices, in ticks, and the parts that show it.
#[derive(Debug, Drop)]
pub struct Priced {
    pub bound: u64,
    pub parts: Vec<Part>,
}

/// Finds prices, where a bound and the cost of a plan are known, in ticks. None if they aren't tried, or show far less
/// than the known bound.
pub fn bound_by_prices(
    alloc: Global,
    problem: &Problem,
    bound: u64,
    cost: u64,
) -> Result<Option<Priced>, OutOfMemory> {
    priced_within(alloc, problem, Known { bound, cost }, &FULL_BUDGETS)
}

/// Finds prices within these budgets. None if they aren't tried, or show far less than the known bound.
pub fn priced_within(
    alloc: Global,
    problem: &Problem,
    known: Known,
    budgets: &Budgets,
) -> Result<Option<Priced>, OutOfMemory> {
    let Some(found) = price_bound(alloc, problem, known, budgets)? else {
        return Ok(None);
    };
    let PriceBound {
        bound,
        list,
        lemmas,
    } = found;
    let parts = parts(alloc, list, lemmas)?;
    Ok(Some(Priced { bound, parts }))
}

// Returns the parts of a certificate of one leaf that uses each lemma.
fn parts(
    alloc: Global,
    list: PriceList,
    lemmas: Vec<PricedLemma>,
) -> Result<Vec<Part>, OutOfMemory> {
    let leaf = leaf(alloc, &lemmas)?;
    let mut parts = Vec::with_capacity(alloc, lemmas.len().saturating_add(4))?;
    parts.push(Part::Prices(1))?;
    parts.push(Part::List(list))?;
    parts.push(Part::Lemmas(lemmas.len() as u64))?;
    for lemma in lemmas {
        parts.push(part(alloc, lemma))?;
    }
    parts.push(Part::Leaf(leaf))?;
    Ok(parts)
}

fn part(alloc: Global, lemma: PricedLemma) -> Part {
    match lemma {
        PricedLemma::One { agent, entries } => Part::One(OneLemma {
            agent,
            constraints: Vec::new(alloc),
            list_number: Some(0),
            entries,
        }),
        PricedLemma::Two {
            i,
            j,
            first,
            second,
            joint,
        } => Part::Two(TwoLemma {
            i,
            j,
            constraints: Vec::new(alloc),
            list_number: Some(0),
            first,
            second,
            joint,
        }),
    }
}

fn leaf(alloc: Global, lemmas: &[PricedLemma]) -> Result<LeafUses, OutOfMemory> {
    let mut singles = Vec::new(alloc);
    let mut groups = Vec::new(alloc);
    for (number, lemma) in lemmas.iter().enumerate() {
        let lemma = match lemma {
            PricedLemma::Two { .. } => number as u64,
            PricedLemma::One { .. } => {
                singles.push(number as u64)?;
                continue;
            }
        };
        let mut uses = Vec::new(alloc);
        uses.push(Use { lemma, weight: 1 })?;
        groups.push(Group { divisor: 1, uses })?;
    }
    Ok(LeafUses {
        list_number: Some(0),
        singles,
        groups,
    })
}
