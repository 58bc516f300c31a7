//! The laws of converted certificates.
ghost use Rattle.mapf_lemma_convert.specs.Laws.{ConversionShows, ConvertedAreSpelled};

/// What a certificate of version 1 or 2 shows, the converted one shows too.
pub fn converted_certificates_show()
    ensures { ConversionShows }
{}

/// The tree of a certificate of version 1 or 2 can be converted exactly if a text spells the converted certificate.
pub fn converted_certificates_are_spelled()
    ensures { ConvertedAreSpelled }
{}
