//! Laws of the definitions that no one call could state. Each is a function with nothing to do, whose contract is the law.

ghost use Rattle.core_step.specs.Laws.{StaysBacked, StepsAlone, WritesIntoPages};
ghost use Rattle.core_step.specs.Touches.{TriesSettle, TouchesAreFew, TouchesAreFound, AlikeStepAlike};

/// An instruction over extents of a larger memory does to them what it does to them alone, and leaves the others.
pub fn steps_alone()
    ensures { StepsAlone }
{}

/// An instruction writes into extents that its pages lie in.
pub fn writes_into_pages()
    ensures { WritesIntoPages }
{}

/// Pages that have memory among a partition's own extents have it in the larger memory.
pub fn stays_backed()
    ensures { StaysBacked }
{}

/// A step touches at most three pages.
pub fn touches_are_few()
    ensures { TouchesAreFew }
{}

/// Each touch has a page.
pub fn touches_are_found()
    ensures { TouchesAreFound }
{}

/// A try over some of the pages does the step, or misses at the first touch whose page isn't there.
pub fn tries_settle()
    ensures { TriesSettle }
{}

/// Lookups that give the same places and faults give the same steps and touches, whatever the sizes of their pages.
pub fn alike_step_alike()
    ensures { AlikeStepAlike }
{}
