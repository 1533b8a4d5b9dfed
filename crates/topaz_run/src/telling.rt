//! What is written of a run.

ghost use Rattle.std.specs.Prelude.{◌≡◌};
ghost use Rattle.topaz_run.specs.Reported.{show_of};

use system::Show;

/// What is written of a run before the lines of its end.
#[derive(Clone, Copy)]
pub enum Telling {
    /// The lines of its steps.
    Report,
    /// One line that counts them, for the generated run of this number.
    Summary(u64),
}

impl Telling {
    /// What is written of each turn.
    pub fn show(self) -> Show
        ensures { result ≡ show_of self }
    {
        match self {
            Telling::Report => Show::Acts,
            Telling::Summary(_number) => Show::Quiet,
        }
    }
}
