//! Laws of the definitions. Each is a function with nothing to do, whose contract is the law.

ghost use Rattle.guest_tlb.specs.Laws.{WritesKeepApart, InvalidationsKeepApart, ResetIsApart, WritesKeepAll, InvalidationsKeepAll, ResetIsKept, MeetingSharesAnAccess, OneMatches, MatchesAreFound, SearchFindsLookup, PlacesNameSlots, FoundIsNamed, WritesBackKeep, AnswersRise, AnswersAreEnded, InvalidationsAnswerDeaths, WritesAnswerDeaths, InvalidationsLeaveOthers, WritesLeaveOthers};

/// No two live translations meet after a reset, and none do after a change where none did before.
pub fn changes_keep_translations_apart()
    ensures reset { ResetIsApart }
    ensures write { WritesKeepApart }
    ensures invalidation { InvalidationsKeepApart }
{}

/// What the slots keep is there after a reset, and stays through each change.
pub fn changes_keep_the_slots()
    ensures reset { ResetIsKept }
    ensures write { WritesKeepAll }
    ensures invalidation { InvalidationsKeepAll }
{}

/// Two live translations meet exactly where some access could have either; where no two do, at most one translates
/// an access, and it is the one that a search finds.
pub fn one_translation_matches()
    ensures meeting { MeetingSharesAnAccess }
    ensures one { OneMatches }
    ensures found { MatchesAreFound }
{}

/// A search and a lookup find the same translation.
pub fn search_finds_the_lookup()
    ensures { SearchFindsLookup }
{}

/// A slot's place names the slot, and so do the registers that report what a search found: a write of them changes
/// nothing.
pub fn places_name_slots()
    ensures places { PlacesNameSlots }
    ensures found { FoundIsNamed }
    ensures back { WritesBackKeep }
{}

/// What a change answers rises, and is exactly what it overwrote or what died.
pub fn answers_are_what_ended()
    ensures rise { AnswersRise }
    ensures ended { AnswersAreEnded }
    ensures invalidations { InvalidationsAnswerDeaths }
    ensures writes { WritesAnswerDeaths }
{}

/// A change leaves what the slots have that it doesn't answer.
pub fn other_slots_stay()
    ensures invalidations { InvalidationsLeaveOthers }
    ensures writes { WritesLeaveOthers }
{}
