//! What the judge of a certificate cites, as a law.
ghost use Rattle.mapf_lemma_checker.specs.Whole.{PartsShowCertificates};

/// The parts of a certificate, judged one after another, show what they have to show exactly if the certificate shows
/// its claim.
pub fn parts_show_certificates()
    ensures { PartsShowCertificates }
{}
