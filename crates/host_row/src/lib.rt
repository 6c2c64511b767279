// A line as two rows of 16 numbers, so that it can lie in a host's memory: a type that holds an enum does not go to C. The first row has what
// a quote leaves alone and bounds are drawn from, terms and market; the second limits, book and holds, which are judged, and written together.
// Numbers that a row has no use for are written as 0 and not read: they are room for what later requests add to a line.

#![tactic(auto)]

use numbers::{Millionths, Seconds};

pub mod reading;
pub mod writing;

pub type Row = [u64; 16];

// A line's two rows.
pub type Pair = [Row; 2];

// The head of a session: what it has beside its lines, in a row of its own. A `Session` has these as fields of its own and no `Head` within:
// its definitions (`view`, `put`) and docs/PROMISES.md name them so. Only a head could have a `From`: a row and a line are no types of this
// crate, so that all have functions.
#[derive(Clone, Copy)]
pub struct Head {
    pub count: usize,
    pub clock: Seconds,
    pub end: Seconds,
    pub hold: Seconds,
    pub left: u32,
    pub near: Millionths,
}
