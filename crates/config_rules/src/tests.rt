//! What the definitions are meant to say: configurations, what they say once accepted, and which are refused.

mod accepting;
mod builder;
