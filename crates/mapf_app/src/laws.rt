//! What ties the runs of `solve` and `check` together, as a law. No code calls it; it is there to be read.
ghost use Rattle.mapf_app.specs.Headline.{PrintedIsDue};

/// What is printed with a plan, with 'impossible' or with a bound has to be accepted by `check`.
pub fn printed_is_due()
    ensures { PrintedIsDue }
{}
