//! What the definitions say of small problems, proved for those who review them. No code calls these functions.
ghost use Rattle.mapf_lemmas.specs.Examples.{ALemmaOfTwoShowsFive, NoGreaterLabelIsSound, PricesShowFive};
ghost use Rattle.mapf_lemmas.specs.Examples.{JointCellsShowImpossibility, CasesShowFive, UsesNeedTheirConstraints};
ghost use Rattle.mapf_lemmas.specs.Examples.{ClearForbidsRest, NotForbidsRestUntilThen};
ghost use Rattle.mapf_lemmas.specs.Examples.{LeastAllowsRestAtItsTick, MostBarsWhoIsLate, MostMeetsNoNot};
ghost use Rattle.mapf_lemmas.specs.Examples.{EqualMeets, StricterMeets, LaterClearMeetsNoNot};
ghost use Rattle.mapf_lemmas.specs.Examples.{CostSplitsByTheCost, CostsNeedsItsLemma, CostsRaisesTheOther};
ghost use Rattle.mapf_lemmas.specs.Examples.{RestPaysLaterPrices, EdgesCostInBothDirections};
ghost use Rattle.mapf_lemmas.specs.Examples.{BoundsRoundUp, UnpricedCountsInUnits};
ghost use Rattle.mapf_lemmas.specs.Examples.{AloneAvoidsTheOthersGoal, AloneIsNeverInTheOthersGoal};

/// The definitions of certificates on small problems, with a lemma of each kind.
pub fn certificates_by_example()
    ensures two { ALemmaOfTwoShowsFive }
    ensures greater { NoGreaterLabelIsSound }
    ensures prices { PricesShowFive }
    ensures never { JointCellsShowImpossibility }
    ensures cases { CasesShowFive }
    ensures uses { UsesNeedTheirConstraints }
{}

/// The definitions of what constraints forbid an agent, and which constraint meets which.
pub fn constraints_by_example()
    ensures clear { ClearForbidsRest }
    ensures not { NotForbidsRestUntilThen }
    ensures least { LeastAllowsRestAtItsTick }
    ensures most { MostBarsWhoIsLate }
    ensures meets { MostMeetsNoNot }
    ensures equal { EqualMeets }
    ensures stricter { StricterMeets }
    ensures later { LaterClearMeetsNoNot }
{}

/// The definitions of splits on costs.
pub fn splits_by_example()
    ensures cost { CostSplitsByTheCost }
    ensures lemma { CostsNeedsItsLemma }
    ensures costs { CostsRaisesTheOther }
{}

/// The definitions of what a path pays.
pub fn prices_by_example()
    ensures rest { RestPaysLaterPrices }
    ensures edge { EdgesCostInBothDirections }
{}

/// The definitions of what a leaf counts.
pub fn leaves_by_example()
    ensures rounding { BoundsRoundUp }
    ensures units { UnpricedCountsInUnits }
{}

/// The definition of sound entries of one agent while the other rests.
pub fn joint_labels_by_example()
    ensures alone { AloneAvoidsTheOthersGoal }
    ensures in_goal { AloneIsNeverInTheOthersGoal }
{}
