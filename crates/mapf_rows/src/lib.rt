//! Do tables of constraints and of distances, the search of one agent and the search for the first conflict, none of
//! which a command shows on its own, give values that are worked out by hand?
#![tactic(auto)]

#[cfg(test)]
mod bars;
#[cfg(test)]
mod conflicts;
#[cfg(test)]
mod distances;
#[cfg(test)]
mod expect;
#[cfg(test)]
mod made;
#[cfg(test)]
mod searches;
