//! That no map and no scenario can be read in two ways, as a law. No code calls it; it is there to be read.
ghost use Rattle.mapf_text.specs.Maps.{SpellsOneMap};
ghost use Rattle.mapf_text.specs.Scenarios.{SpellsOneScenario};

/// No text spells two maps, nor, on one grid, two problems with the same number of agents.
pub fn inputs_are_spelled_apart()
    // No bytes spell two maps.
    ensures map { SpellsOneMap }
    // On one grid no bytes spell two problems with the same number of agents.
    ensures scen { SpellsOneScenario }
{}
