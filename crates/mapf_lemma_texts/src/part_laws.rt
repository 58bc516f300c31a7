//! The laws of whole certificates of version 3 and their parts.
ghost use Rattle.mapf_lemma_texts.specs.WholeTexts.{TextsHaveTrees, TreesHaveTexts, SpellsOneCertificate};

/// A text of which each part is in its place spells price lists, lemmas and a tree, whose parts these are.
pub fn texts_have_trees()
    ensures { TextsHaveTrees }
{}

/// The text of price lists, lemmas and a tree has their parts, each in its place.
pub fn trees_have_texts()
    ensures { TreesHaveTexts }
{}

/// On one grid no text spells two certificates of version 3.
pub fn certificates_are_spelled_apart()
    ensures { SpellsOneCertificate }
{}
