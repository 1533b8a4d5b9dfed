//! What no clause says: that trees worked out by hand have their answers.

mod boards;
mod builder;
mod configurations;
mod largest;
