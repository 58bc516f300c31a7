//! How much more do all agents cost at least than the sum of what each costs alone, if that is known of some sets of
//! agents?
//!
//! A set's excess says by how much its agents cost more together than alone, at least. Excesses of sets without a common
//! agent may be added. A *packing* does more: it gives each set a weight, such that for each agent the weights of its
//! sets add up to at most 1. Then the sum of weight times excess is a bound. Where it is made of groups that share no
//! agent, each of them may be rounded up, since a sum of costs is whole.
//!
//! For pairs, whose excesses are the edges of a weighted dependency graph, the greatest sum without rounding is that of a
//! least cover by fractions. Li et al. 2019 ('Improved Heuristics for Multi-Agent Path Finding with Conflict-Based
//! Search') take a least cover by whole numbers, which may be greater, but isn't a sum that a certificate could show.
//!
//! The sets are split into parts that share no agent (`Parts`). The greatest weights of a part are those of a linear
//! program (`Program`), solved exactly, in whole numbers, by the simplex method (`Tableau`). The sets with a weight are
//! mostly split into more parts, and each of these is a group (`Relaxation`). Where numbers get too great, sets without a
//! common agent are taken (`Greedy`). Rounding up may favour other packings: so blocks, which are sets of three agents or
//! more and triangles of pairs, are tried first, and the rest is packed as before (`PartPacker`).
//!
//! Nothing is promised of the answers, since what a search makes of them is judged by a checker. What is proved is that
//! each call returns, within its ranges.
#![tactic(auto)]

mod blocks;
mod draft;
mod greedy;
mod grouper;
mod packer;
mod packing;
mod part_packer;
mod parts;
mod program;
mod relaxation;
mod share;
mod simplex;
mod tableau;
mod taken;

pub use packer::Packer;
pub use packing::{Excess, PackedGroup, Packing, Weighted};
