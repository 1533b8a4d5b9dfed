//! Laws of the definitions. Each is a function with nothing to do, whose contract is the law.

ghost use Rattle.vpic.specs.Kept.{BeginsKept, TakingKeeps, EndingKeeps, ConfiguringKeeps, MaskingKeeps, TaskKeeps, RingingKeeps};
ghost use Rattle.vpic.specs.Laws.{OneIsChosen, TheChosenIsFound, NoneIsFound, PutIn, TakenOut};

/// At most one interrupt is chosen; it is the one that is answered, and none is where no source may be taken.
pub fn one_is_chosen()
    ensures one { OneIsChosen }
    ensures found { TheChosenIsFound }
    ensures none { NoneIsFound }
{}

/// A number that is put into a set is in it, one that is taken out isn't, and no other changes.
pub fn numbers_are_put_and_taken()
    ensures put { PutIn }
    ensures taken { TakenOut }
{}

/// What a controller keeps is there from the start, and stays through each call.
pub fn calls_keep_the_controller()
    ensures begins { BeginsKept }
    ensures taking { TakingKeeps }
    ensures ending { EndingKeeps }
    ensures configuring { ConfiguringKeeps }
    ensures masking { MaskingKeeps }
    ensures task { TaskKeeps }
    ensures ringing { RingingKeeps }
{}
