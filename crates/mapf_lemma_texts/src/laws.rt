//! The laws of lines of version 3. A reader that splits a text at its LFs rests on them.
ghost use Rattle.mapf_lemma_texts.specs.Laws.{LinesAreSpelledApart, TextsBeginWithOneLine, LinesLackEnds};
ghost use Rattle.mapf_lemma_texts.specs.Laws.{LinesAreShort};

/// A line has one spelling, which no other line has.
pub fn lines_are_spelled_apart()
    // No two lines that may come at a place have the same words.
    ensures words { LinesAreSpelledApart }
    // Two texts of which one begins the other begin with one line.
    ensures texts { TextsBeginWithOneLine }
{}

/// A line has no LF before its end, and few bytes.
pub fn lines_are_short()
    // No line has an LF in its words.
    ensures ends { LinesLackEnds }
    // A line has a byte before its LF, and at most 64.
    ensures short { LinesAreShort }
{}
