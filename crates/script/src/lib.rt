//! Scripts: in which order the cores have their turns, and which bytes are given to the consoles at which turn.
//!
//! It stands on `outside` for lists and on the kit's `hex` for bytes. `specs/Text.antt` says what the lines and words of a text
//! are, `specs/Form.antt` and `specs/Meaning.antt` what a line says, `specs/Fault.antt` which rule is broken first, and
//! `specs/Course.antt` what a script comes to. The format is this project's own; docs/FORMATS.md has it in words.
#![tactic(auto)]

mod fault;
mod form;
mod input;
mod line;
mod lines;
mod meaning;
mod names;
mod reading;
mod script;
#[cfg(test)]
mod tests;
mod words;

pub use fault::ScriptFault;
pub use names::Names;
pub use script::Script;
