// Lines of bytes: cleared, mixed, scrolled, and expanded to dots. It knows no register but the codes of MX and GRAY SCALE.
#![tactic(auto)]

mod clearing;
mod codes;
mod expanding;
mod mixing;
mod scrolling;

pub use clearing::clear;
pub use mixing::{mix_bytes, third_mix};
pub use scrolling::expand_scrolled;

// How layers are mixed.
#[derive(Clone, Copy, PartialEq, Eq)]
pub enum Mix {
    Or,
    Xor,
    And,
    Priority,
}

// How many bits a dot has.
#[derive(Clone, Copy, PartialEq, Eq)]
pub enum Depth {
    One,
    Two,
    Four,
}
