//! What the definitions are meant to say: one configuration, described and wired by hand.

mod descriptions;
mod drafts;
mod joints;
