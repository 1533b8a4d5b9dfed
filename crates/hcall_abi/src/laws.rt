//! Laws over the definitions.

ghost use Rattle.hcall_abi.specs.Laws.{StatusIsRead, ValuesAreRead, OthersStay, AllElseStays, WordsSpell};

/// Does nothing. By its contract a reply is read where it was written, and nothing else changes.
pub fn replies_are_read()
    ensures status { StatusIsRead }
    ensures values { ValuesAreRead }
    ensures others { OthersStay }
    ensures rest { AllElseStays }
{}

/// Does nothing. By its contract the words of at most sixteen bytes spell those bytes, and zeros behind.
pub fn words_spell_their_bytes()
    ensures { WordsSpell }
{}
