//! What the definitions say of small problems, proved for those who review them. No code calls these functions.
ghost use Rattle.mapf_model.specs.Examples.{WaitingBoundsALabel, NoLabelIsRaisedAtAFreeGoal};
ghost use Rattle.mapf_model.specs.Examples.{AClashShowsImpossibility, OneStartIsNoPlan, SwappingIsNoPlan};
ghost use Rattle.mapf_model.specs.Examples.{EachChildBarsItsAgent, ChildrenInheritLabels};
ghost use Rattle.mapf_model.specs.Examples.{SplitsAreJudgedByTheirOwnBars};

/// The definitions of labels on small problems.
pub fn labels_by_example()
    ensures waiting { WaitingBoundsALabel }
    ensures raised { NoLabelIsRaisedAtAFreeGoal }
{}

/// The definitions of plans on small problems.
pub fn plans_by_example()
    ensures one_start { OneStartIsNoPlan }
    ensures swap { SwappingIsNoPlan }
{}

/// The definitions of constraint trees on small problems.
pub fn trees_by_example()
    ensures clash { AClashShowsImpossibility }
    ensures children { EachChildBarsItsAgent }
    ensures labels { ChildrenInheritLabels }
    ensures own_bars { SplitsAreJudgedByTheirOwnBars }
{}
