//! Two agents that can never both arrive, since each of them blocks the way of the other.
use crate::joint_cells::{JointCells, JointTask};
use crate::searcher::Searcher;
use mapf_lemma_texts::Part;
use mapf_lemmas::JointCell;
use mapf_model::OutOfMemory;
use mapf_nodes::pairs_of;
use mapf_tree_lemmas::never_left;

/// How many joint cells may be looked at for two agents. If there are more, it is left open whether both can arrive.
const MOST_JOINT_CELLS: usize = 100_000;

impl<'a> Searcher<'a> {
    /// Returns the parts of a certificate that shows that no plan is valid, if two agents in conflict at the root can
    /// never both arrive. That is asked only where the search for the two has found no paths.
    pub fn blocking(&mut self) -> Result<Option<Vec<Part>>, OutOfMemory> {
        let Some(root) = self.tree.node(0) else {
            return Ok(None);
        };
        for (i, j) in pairs_of(self.alloc, &root.conflicts)? {
            if self.have_paths(i, j)? {
                continue;
            }
            if let Some(cells) = self.joint_cells(i, j)? {
                return Ok(Some(never_left(self.alloc, (i, j), cells)?));
            }
        }
        Ok(None)
    }

    // Returns whether the search for two agents at the root has found paths without a conflict.
    fn have_paths(&mut self, i: u32, j: u32) -> Result<bool, OutOfMemory> {
        let Some((first, second)) = self.singles_at(0, i, j) else {
            return Ok(false);
        };
        let Some(pair) = self.pair_number(first, second)? else {
            return Ok(false);
        };
        let known = self.store.pairs.get(pair);
        Ok(known.is_some_and(|known| known.paths().is_some()))
    }

    // Returns the joint cells in which two agents can be, in rising order. None if both goals are among them, or there are
    // too many.
    fn joint_cells(&mut self, i: u32, j: u32) -> Result<Option<Vec<JointCell>>, OutOfMemory> {
        let agents = self.problem.agents();
        let (Some(&first), Some(&second)) = (agents.get(i as usize), agents.get(j as usize)) else {
            return Ok(None);
        };
        let singles = &self.store.singles;
        let (Some(to_first), Some(to_second)) = (singles.to_goal(i), singles.to_goal(j)) else {
            return Ok(None);
        };
        let task = JointTask {
            grid: self.problem.grid(),
            agents: (first, second),
            distances: (to_first, to_second),
        };
        JointCells::closed(self.alloc, &task, MOST_JOINT_CELLS)
    }
}
