//! A configuration from a tree.

ghost use Rattle.std.specs.Prelude.{◌≡◌, None, IfOk, IfErr, OnOk};
ghost use Rattle.hv_config.specs.Rule.{Says, first_broken};
ghost use Rattle.dt_model.specs.Fit.{Fits};
ghost use Rattle.hv_config.specs.Plain.{IsPlain};
ghost use Rattle.hv_config.specs.Meaning.{config_of};

use crate::config::Config;
use crate::fault::Fault;
use crate::meaning::config_in;
use crate::rule::check;
use crate::seat::seats_of;
use dt_model::{Tree, fitting_trees_keep_names_apart};
use std::alloc::Global;

/// The configuration that a tree says. It is refused by the least number of the rules C1 to C4 that it breaks, at the
/// first node in document order that breaks it.
pub fn parse(alloc: Global, tree: &Tree) -> Result<Config, Fault>
    ensures kept { OnOk result (first_broken tree.now ≡ None) }
    ensures value { IfOk result (λ config. config ≡ config_of tree.now) }
    ensures plain { Fits tree.now → IfOk result (λ config. IsPlain config) }
    ensures broken { IfErr result (λ fault. Says fault (first_broken tree.now)) }
{
    fitting_trees_keep_names_apart();
    let seats = seats_of(alloc, tree)?;
    check(alloc, &seats)?;
    Ok(config_in(alloc, &tree.root)?)
}
