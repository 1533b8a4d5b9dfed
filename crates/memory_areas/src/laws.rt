//! Laws of places. Each is a function with nothing to do, whose contract is the law.

ghost use Rattle.memory_areas.specs.Laws.{OneRegionHasIt, ItsRegionGivesThePlace, OrderIsFree, PlacesAreOfRegions, RunsHaveBytes, RunsGoOn, OneAddressIsAtAByte, PrivateBytesAreInRegions};

/// In a sound description at most one region has an address, and gives its place, whatever the order of the regions.
pub fn one_region_has_an_address()
    ensures one { OneRegionHasIt }
    ensures place { ItsRegionGivesThePlace }
    ensures order { OrderIsFree }
{}

/// The place of an address is its place in one of the regions that have it.
pub fn places_are_those_of_regions()
    ensures { PlacesAreOfRegions }
{}

/// A run has at least one byte, and the addresses of all its bytes have their places in the same extent, one after
/// another.
pub fn runs_go_on_in_their_extent()
    ensures bytes { RunsHaveBytes }
    ensures on { RunsGoOn }
{}

/// No two addresses of a sound description have the same byte.
pub fn each_byte_has_one_address()
    ensures { OneAddressIsAtAByte }
{}

/// Each byte of a private range is in a private region, and so has a place.
pub fn private_bytes_have_places()
    ensures { PrivateBytesAreInRegions }
{}
