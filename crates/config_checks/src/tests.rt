//! What the definitions are meant to say: each rule at its edge, and the value beside it.

mod areas;
mod drafts;
mod largest;
mod links;
mod names;
mod orders;
mod parts;
