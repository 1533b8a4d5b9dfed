//! Laws of what numbers decide. Each is a function with nothing to do, whose contract is the law.

ghost use Rattle.gen_load.specs.Laws.{CountsAreFew, OrdersNameCpus, StartsAreSmall};

/// A bundle has 2 to 8 partitions.
pub fn counts_are_few()
    ensures { CountsAreFew }
{}

/// Each partition has a start, below 32,768.
pub fn starts_are_small()
    ensures { StartsAreSmall }
{}

/// The script has 64 turns, each of a cpu of the hardware.
pub fn orders_name_cpus()
    ensures { OrdersNameCpus }
{}
