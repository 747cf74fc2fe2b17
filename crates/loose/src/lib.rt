//! A box taken apart into its pointer and its allocator, and made whole again.
//!
//! [`Box::into_raw`] gives a pointer that owns nothing. If a struct keeps such a pointer, its author must say, and
//! prove by hand, that the struct still owns what it points to. [`Loose`] says it once, for every type. Who takes one
//! apart has the pointer together with the right to its block. Who makes one shows the same.
#![tactic(auto)]

mod loose;

pub use loose::Loose;
