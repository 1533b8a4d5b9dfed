//! Laws of the definitions. Each is a function with nothing to do, whose contract is the law.

ghost use Rattle.mas.specs.Laws.{HeldFits, ReportedIsHeld, MissReportsPage, MissNamesVictim, MissSetsSearch};

/// The translation that registers hold fits them, whatever their bits.
pub fn held_translations_fit()
    ensures { HeldFits }
{}

/// The registers that report a translation that fits hold it.
pub fn reported_is_held()
    ensures { ReportedIsHeld }
{}

/// A TLB error leaves a translation of the page that missed, where it is to be put, and the search that would find it.
pub fn misses_report_their_page()
    ensures page { MissReportsPage }
    ensures victim { MissNamesVictim }
    ensures search { MissSetsSearch }
{}
