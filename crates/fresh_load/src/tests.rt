//! What the definitions are meant to say: images and trees at the edges of the rules, and bytes worked out by hand.

mod bytes;
mod drafts;
mod entries;
mod faults;
