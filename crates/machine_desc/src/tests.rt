//! What the definitions are meant to say: each condition at its edge, and the value beside it.

mod drafts;
mod joint;
mod soundness;
