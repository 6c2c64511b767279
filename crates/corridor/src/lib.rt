// A session: opened from a morning table, it takes timed events and answers with shifts.

#![tactic(auto)]

ghost use Rattle.std.specs.Prelude.{◌≡◌};
ghost use Rattle.method.specs.computed.Table.{opening};
ghost use Rattle.corridor.specs.View.{opened_session};

use arrayvec::ArrayVec;
use method::{Line, ShiftLine, TableRefusal};
use numbers::{Millionths, Seconds};

pub mod event;
pub mod serving;

// The table's lines stand in the first `count` places, in its order. `left` is how many shifts may still be made.
// An array with its count, and no `ArrayVec` and no invariant: a session is read from a host's memory, where any number may stand, so each
// function asks that it is `Valid`. The one by `default` is not: it is `no_session`, which stands in such a memory after a refused table.
#[derive(Clone, Copy, Default)]
pub struct Session {
    pub lines: [Line; 32],
    pub count: usize,
    pub clock: Seconds,
    pub end: Seconds,
    pub hold: Seconds,
    pub left: u32,
    pub near: Millionths,
}

// The shift lines of one event, in their order.
pub type Shifts = ArrayVec<ShiftLine, 16>;

// Opens a session from the bytes of a morning table.
pub fn open(bytes: &[u8]) -> Result<Session, TableRefusal>
    ensures { result ≡ opened_session (opening bytes.now) }
{
    let opened = table::open(bytes)?;
    let count = opened.lines.len();
    let mut lines = [Line::default(); 32];
    lines[..count].copy_from_slice(&opened.lines);
    Ok(Session {
        lines,
        count,
        clock: Seconds(0),
        end: opened.end,
        hold: opened.hold,
        left: opened.most,
        near: opened.near,
    })
}
