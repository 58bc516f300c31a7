//! That no text of the two formats can be read in two ways, as laws. No code calls them; they are there to be read.
ghost use Rattle.mapf_certificate.specs.Certificates.{SpellsOneCert};
ghost use Rattle.mapf_certificate.specs.Plans.{SpellsOnePlan};

/// On one grid no text spells two certificates of version 1 or 2.
pub fn certificates_are_spelled_apart()
    ensures { SpellsOneCert }
{}

/// On one grid no text spells two plan texts: neither in two versions, nor for two numbers of agents, nor with two
/// answers.
pub fn plans_are_spelled_apart()
    ensures { SpellsOnePlan }
{}
