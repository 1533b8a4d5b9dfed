//! What the definitions are meant to say: whole trees, written down row by row.

mod drafts;
mod trees;
