//! The ascent: in rounds, prices of what several agents use rise, and those of what nobody uses fall.
use crate::couples::Couples;
use crate::pairing::Shares;
use crate::paths::Paths;
use crate::prices::Prices;
use mapf_distance::Distances;
use mapf_model::{OutOfMemory, Problem, Tick};
use std::alloc::Global;

// A direction has so many parts for each use too many.
const PARTS: i64 = 256;

// A step is theta parts of so many of the gap to the target.
const THETA_PARTS: i64 = 1024;

const FIRST_THETA: i64 = 307;

const LEAST_THETA: i64 = 1;

const PAIRED_THETA: i64 = 512;

// After so many rounds without a better bound, theta falls to two thirds, and the ascent goes on from the best prices.
const PATIENCE: u32 = 15;

/// What is known of the least sum of costs, in ticks.
#[derive(Clone, Copy, Debug)]
pub struct Known {
    /// A bound of it.
    pub bound: u64,
    /// The cost of a plan.
    pub cost: u64,
}

/// How many rounds an ascent may make, and how many states its searches may expand.
#[derive(Clone, Copy, Debug)]
pub struct Budget {
    pub rounds: u32,
    /// A joint state takes about as long as eight others, and counts for so many.
    pub states: u64,
}

impl Budget {
    // Returns how many percent of the budget are spent after so many rounds and states: 100 if one of both is used up.
    fn percent(&self, rounds: u32, states: u64) -> u64 {
        let rounds = u64::from(rounds).saturating_mul(100) / u64::from(self.rounds.max(1));
        let states = states.saturating_mul(100) / self.states.max(1);
        rounds.max(states)
    }
}

/// How the rounds of an ascent ended.
#[derive(Clone, Copy, Debug, PartialEq, Eq)]
pub enum Ended {
    /// The bound shows that the known plan is optimal.
    Optimal,
    /// It will hardly reach the known bound.
    Behind,
    /// The budget is spent.
    Spent,
}

/// The price of a resource by its number, in units.
#[derive(Clone, Copy, Debug, PartialEq, Eq, PartialOrd, Ord)]
pub struct Priced {
    pub number: usize,
    pub amount: u32,
}

// A resource that had a price, or that several agents used.
#[derive(Clone, Copy, Debug)]
struct Contested {
    number: usize,
    // By how much its price rises, compared with others.
    direction: i64,
}

/// An ascent, and its best prices.
#[derive(Drop)]
pub struct Ascent<'a> {
    pub prices: Prices,
    pub paths: Paths<'a>,
    contested: Vec<Contested>,
    // By resource.
    is_contested: Vec<bool>,
    /// The greatest bound so far, in units.
    pub bound: u64,
    pub best: Vec<Priced>,
    // The bound without prices, in units.
    unpriced: u64,
    // The known bound, in units, and the cost of the known plan.
    known: u64,
    target: u64,
    theta: i64,
    idle: u32,
    // What each two agents share in the rounds without mates.
    shares: Shares,
    // Whether the bound was compared with the known one.
    is_compared: bool,
    is_paired: bool,
    /// By agent, who is priced together with it, or the agent itself.
    pub mates: Vec<usize>,
    pub couples: Couples,
}

impl<'a> Ascent<'a> {
    /// Returns the ascent before its first round.
    pub fn of(
        alloc: Global,
        problem: &'a Problem,
        distances: &'a [Distances],
        prices: Prices,
        known: Known,
    ) -> Result<Ascent<'a>, OutOfMemory> {
        let paths = Paths::of(alloc, problem, distances, &prices)?;
        let count = prices.resources.count();
        let unit = u64::from(prices.unit);
        let agents = paths.all.len();
        let couples = Couples::of(alloc, prices.resources.cells, prices.resources.ticks)?;
        let mut mates = Vec::with_capacity(alloc, agents)?;
        for agent in 0..agents {
            mates.push(agent)?;
        }
        let is_contested = vec![in alloc; false; count]?;
        let shares = Shares::of(alloc, agents)?;
        Ok(Ascent {
            prices,
            paths,
            contested: Vec::new(alloc),
            is_contested,
            bound: 0,
            best: Vec::new(alloc),
            unpriced: 0,
            known: known.bound.saturating_mul(unit),
            target: known.cost.saturating_mul(unit),
            theta: FIRST_THETA,
            idle: 0,
            shares,
            is_compared: false,
            is_paired: false,
            mates,
            couples,
        })
    }

    /// Makes rounds until the budget is spent. Stops when the bound shows that the known plan is optimal, or if after a
    /// quarter of the budget it is far behind the known bound.
    pub fn run(&mut self, budget: &Budget) -> Result<Ended, OutOfMemory> {
        let unit = u64::from(self.prices.unit);
        let begin = self.states();
        for round in 0..budget.rounds {
            let spent = budget.percent(round, self.states().saturating_sub(begin));
            if spent >= 100 {
                break;
            }
            let sum = self.improve()?;
            self.judge(sum.saturating_sub(self.prices.total))?;
            if self.bound.saturating_add(unit) > self.target {
                return Ok(Ended::Optimal);
            }
            if spent >= 25 && !self.is_compared {
                self.is_compared = true;
                if self.is_behind() {
                    return Ok(Ended::Behind);
                }
            }
            if spent > 50 && !self.is_paired {
                self.shares.note(&self.prices, &self.paths)?;
            }
            self.contest()?;
            if !self.climb() {
                break;
            }
        }
        Ok(Ended::Spent)
    }

    // Returns how many states all searches have expanded.
    fn states(&self) -> u64 {
        let joint = self.couples.search.expanded.saturating_mul(8);
        self.paths.search.expanded.saturating_add(joint)
    }

    // Returns whether prices raised the bound by less than two thirds of what the known one needs: the rounds after the
    // first quarter seldom add more than half of what these did.
    fn is_behind(&self) -> bool {
        let risen = self.bound.saturating_sub(self.unpriced);
        let needed = self.known.saturating_sub(self.unpriced);
        risen.saturating_mul(3) < needed.saturating_mul(2)
    }

    /// Goes on with mates, from the best prices.
    pub fn pair(&mut self) -> Result<(), OutOfMemory> {
        self.mates = self.shares.mates()?;
        self.is_paired = true;
        self.go_back();
        self.theta = PAIRED_THETA;
        self.idle = 0;
        Ok(())
    }

    /// Finds paths of least priced cost, one after the other, or two by two, and returns the sum of their priced costs.
    pub fn improve(&mut self) -> Result<u64, OutOfMemory> {
        let mut sum = 0u64;
        for agent in 0..self.mates.len() {
            let mate = self.mates.get(agent).copied().unwrap_or(agent);
            let cost = if mate == agent {
                self.paths.improve_one(&mut self.prices, agent)?
            } else if mate > agent {
                self.couples
                    .improve(&mut self.paths, &mut self.prices, (agent, mate))?
            } else {
                0
            };
            sum = sum.saturating_add(cost);
        }
        Ok(sum)
    }

    /// Sets the prices to the best ones, each rounded to the next multiple of so many units, and counted in these.
    pub fn price_rounded(&mut self, coarser: u32) {
        self.go_back();
        let coarser = coarser.max(1);
        let mut end = 0;
        for one in &self.best {
            let amount = one.amount.saturating_add(coarser / 2) / coarser;
            self.prices.set(one.number, amount);
            if amount > 0 {
                end = end.max(self.prices.end_of(one.number));
            }
        }
        self.prices.end = end;
    }

    // Keeps the prices if their bound is the greatest, and goes back to the best ones if none was for long.
    fn judge(&mut self, bound: u64) -> Result<(), OutOfMemory> {
        if self.contested.is_empty() {
            self.unpriced = bound;
        }
        if bound > self.bound {
            self.bound = bound;
            self.idle = 0;
            return self.keep();
        }
        self.idle = self.idle.saturating_add(1);
        if self.idle >= PATIENCE {
            self.idle = 0;
            self.theta = (self.theta.saturating_mul(2) / 3).max(LEAST_THETA);
            self.go_back();
        }
        Ok(())
    }

    fn keep(&mut self) -> Result<(), OutOfMemory> {
        self.best.clear();
        for one in &self.contested {
            let amount = self.prices.get(one.number);
            if amount > 0 {
                self.best.push(Priced {
                    number: one.number,
                    amount,
                })?;
            }
        }
        Ok(())
    }

    fn go_back(&mut self) {
        for one in self.contested.iter_mut() {
            self.prices.set(one.number, 0);
            one.direction = 0;
        }
        let mut end = 0;
        for one in &self.best {
            self.prices.set(one.number, one.amount);
            end = end.max(self.prices.end_of(one.number));
        }
        self.prices.end = end;
    }

    // Adds the resources that several agents use now.
    fn contest(&mut self) -> Result<(), OutOfMemory> {
        for agent in 0..self.paths.all.len() {
            self.contest_along(agent)?;
        }
        Ok(())
    }

    fn contest_along(&mut self, agent: usize) -> Result<(), OutOfMemory> {
        let Some(path) = self.paths.all.get(agent) else {
            return Ok(());
        };
        let mut from = path.first().copied().unwrap_or(0);
        for tick in 1..self.prices.resources.ticks {
            let to = path.get(tick as usize).copied().unwrap_or(from);
            let cell = self.prices.resources.cell(tick, to);
            add_contested(
                &self.prices,
                cell,
                &mut self.contested,
                &mut self.is_contested,
            )?;
            if to != from {
                let edge = self.prices.resources.edge(tick.saturating_sub(1), from, to);
                add_contested(
                    &self.prices,
                    edge,
                    &mut self.contested,
                    &mut self.is_contested,
                )?;
            }
            from = to;
        }
        Ok(())
    }

    // Changes all prices by a step. Returns whether there is a direction.
    fn climb(&mut self) -> bool {
        let mut squares = 0i64;
        for one in self.contested.iter_mut() {
            let uses = i64::from(self.prices.uses(one.number));
            let rise = uses.saturating_sub(1).saturating_mul(PARTS);
            one.direction = rise.saturating_add(one.direction / 2);
            if one.direction < 0 && self.prices.get(one.number) == 0 {
                one.direction = 0;
            }
            squares = squares.saturating_add(one.direction.saturating_mul(one.direction));
        }
        let gap = self.target.saturating_sub(self.bound).saturating_mul(3) / 10;
        let gap = i64::try_from(gap.max(u64::from(self.prices.unit))).unwrap_or(0);
        let strength = self.theta.saturating_mul(gap);
        let divisor = squares.saturating_mul(THETA_PARTS / PARTS);
        let mut end = 0;
        for place in 0..self.contested.len() {
            if let Some(&one) = self.contested.get(place) {
                let step = rounded(strength.saturating_mul(one.direction), divisor);
                end = end.max(self.step(one.number, step));
            }
        }
        self.prices.end = end;
        squares > 0
    }

    // Changes a price. Returns the first tick after the resource if it has a price now, else 0.
    fn step(&mut self, number: usize, step: i64) -> Tick {
        let amount = i64::from(self.prices.get(number)).saturating_add(step);
        let amount = u32::try_from(amount.max(0)).unwrap_or(u32::MAX);
        self.prices.set(number, amount);
        if amount > 0 {
            self.prices.end_of(number)
        } else {
            0
        }
    }
}

// Returns a quotient, rounded to the nearest whole number.
fn rounded(dividend: i64, divisor: i64) -> i64 {
    let half = divisor / 2;
    let sum = if dividend < 0 {
        dividend.saturating_sub(half)
    } else {
        dividend.saturating_add(half)
    };
    sum.checked_div(divisor).unwrap_or(0)
}

fn add_contested(
    prices: &Prices,
    number: usize,
    contested: &mut Vec<Contested>,
    is_contested: &mut Vec<bool>,
) -> Result<(), OutOfMemory> {
    if prices.uses(number) < 2 {
        return Ok(());
    }
    if let Some(entry) = is_contested.get_mut(number) {
        if !*entry {
            *entry = true;
            contested.push(Contested {
                number,
                direction: 0,
            })?;
        }
    }
    Ok(())
}
