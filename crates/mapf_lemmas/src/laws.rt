//! The laws of lemmas.
ghost use Rattle.mapf_lemmas.specs.Laws.{SingleLabelBound, JointLabelBound, ClosedMeansNone, PricesBound};
ghost use Rattle.mapf_lemmas.specs.Laws.{SplitsLoseNoPlan, TreesShowTruth, LemmasAreTrue, CertificatesShowTruth};
ghost use Rattle.mapf_lemmas.specs.Laws.{SingleLabelIsUnique, JointLabelIsUnique, StatementIsUnique};
ghost use Rattle.mapf_lemmas.specs.Laws.{LeafLabelsDecide};

/// Under sound labels of one agent each path that satisfies the constraints costs, with what it pays, at least the
/// label of its start and the price of the start.
pub fn single_label_bound()
    ensures { SingleLabelBound }
{}

/// Under sound labels of two agents every two paths without a conflict that satisfy the constraints cost, with what
/// they pay, at least the label of their starts and the prices of the starts.
pub fn joint_label_bound()
    ensures { JointLabelBound }
{}

/// If two agents never leave a set of joint cells without a conflict, and the pair of their goals isn't in it, every
/// two of their paths conflict.
pub fn closed_means_none()
    ensures { ClosedMeansNone }
{}

/// Different agents of a valid plan pay together at most the sum of all prices.
pub fn prices_bound()
    ensures { PricesBound }
{}

/// A proper split loses no valid plan, if the lemmas that may be named are true.
pub fn splits_lose_no_plan()
    ensures { SplitsLoseNoPlan }
{}

/// What a tree shows is true, if the lemmas that it may name are.
pub fn trees_show_truth()
    ensures { TreesShowTruth }
{}

/// Every lemma of a list in which each shows its statement has a true one.
pub fn lemmas_are_true()
    ensures { LemmasAreTrue }
{}

/// What a certificate of version 3 shows is true: no valid plan costs less than its claim, or none is valid.
pub fn certificates_show_truth()
    ensures { CertificatesShowTruth }
{}

/// What a checker that computes labels, statements and bounds rests on.
pub fn lemmas_are_decided()
    // A state has one label.
    ensures single { SingleLabelIsUnique }
    // A joint state has one label.
    ensures joint { JointLabelIsUnique }
    // A lemma has one statement.
    ensures statement { StatementIsUnique }
    // Known labels of a leaf decide what it shows.
    ensures leaf { LeafLabelsDecide }
{}
