// A session as 33 pairs of rows of 16 numbers, in memory that a host owns: the whole session out of it and into it; and its head, one line of
// it, or what an event changes of these, where it lies. No crate above this one knows a place in the memory.

#![tactic(auto)]

ghost use Rattle.std.specs.Prelude.{◌≡◌, ◌<◌, ◌≤◌, length, get_or, map, take};
ghost use Rattle.method.specs.words.Types.{blank};
ghost use Rattle.corridor.specs.View.{moved_on, with_line};
ghost use Rattle.host_row.specs.Packed.{no_row, line_in, head_in};
ghost use Rattle.host_memory.specs.Memory.{with_judged, session_of, session_in};

use corridor::Session;
use host_row::{Head, Pair, reading, writing};
use method::{Holds, Line};
use numbers::Seconds;
use std::array;

// Each line has a pair of rows, and after them the head has one.
const LINES: usize = method::MOST_CONTRACTS as usize;

// An array and no type of its own: C lends it, and any numbers may stand in it. So that they read as a session is a clause (`Valid`) wherever
// it is asked.
pub type Memory = [Pair; LINES + 1];

// How many numbers a session takes.
pub fn numbers() -> usize
    ensures { result ≡ 1056 }
{
    (LINES + 1) * 2 * 16
}

// ---- what is read

#[tactic(auto, using(crate::proofs::Places::head_is))]
pub fn head(memory: &Memory) -> Head
    ensures { session_in memory.now ≡ session_of (session_in memory.now).lines result }
{
    reading::head(&memory[LINES][0])
}

pub fn line_at(memory: &Memory, place: usize) -> Line
    requires { place < 32 }
    ensures { result ≡ get_or (session_in memory.now).lines place blank }
{
    reading::line(&memory[place])
}

// The pairs of the lines in use.
pub fn lines(memory: &Memory) -> &[Pair]
    requires { (session_in memory.now).count ≤ 32 }
    ensures { map line_in result.now ≡ take (session_in memory.now).count (session_in memory.now).lines }
{
    &memory[..head(memory).count]
}

// Of a line its id alone, or its holds: what a walk over all lines wants.
#[tactic(auto, unfolding(host_row::specs::Packed::line_in))]
pub fn id(pair: &Pair) -> u32
    ensures { result ≡ (line_in pair.now).terms.id }
{
    reading::id(&pair[0])
}

#[tactic(auto, unfolding(host_row::specs::Packed::line_in))]
pub fn holds(pair: &Pair) -> Holds
    ensures { result ≡ (line_in pair.now).holds }
{
    reading::holds(&pair[1])
}

pub fn taken(memory: &Memory) -> Session
    ensures { result ≡ session_in memory.now }
{
    let head = head(memory);
    Session {
        lines: array::from_fn(|place| line_at(memory, place)),
        count: head.count,
        clock: head.clock,
        end: head.end,
        hold: head.hold,
        left: head.left,
        near: head.near,
    }
}

// ---- what is written

pub fn kept(memory: &mut Memory, s: &Session)
    ensures { session_in memory.new ≡ s.now }
{
    // By place: of what is written through `iter_mut().zip(..)` a proof knows nothing.
    for (place, line) in s.lines.iter().enumerate() {
        memory[place] = writing::rows(line);
    }
    let head = writing::head_row(Head {
        count: s.count,
        clock: s.clock,
        end: s.end,
        hold: s.hold,
        left: s.left,
        near: s.near,
    });
    memory[LINES] = [head, [0; 16]];
}

// The second row of a line's pair.
#[tactic(auto, unfolding(host_row::specs::Packed::line_in))]
fn judge(pair: &mut Pair, l: &Line)
    ensures { line_in pair.new ≡ with_judged (line_in pair.old) l.now.limits l.now.book l.now.holds }
{
    pair[1] = writing::judged_row(l);
}

// Other limits, another book and other holds of a line: its second row alone, which is all that a quote changes.
pub fn with_judged(memory: &mut Memory, place: usize, l: &Line)
    requires { place < 32 }
    ensures { session_in memory.new ≡ with_line (session_in memory.old) place
        (with_judged (get_or (session_in memory.old).lines place blank) l.now.limits l.now.book l.now.holds) }
{
    judge(&mut memory[place], l);
}

// The first row of the pair that the head stands in.
fn set_head(pair: &mut Pair, h: Head)
    ensures { head_in (get_or pair.new 0 no_row) ≡ h }
{
    pair[0] = writing::head_row(h);
}

// Another clock.
pub fn with_clock(memory: &mut Memory, t: Seconds)
    ensures { session_in memory.new ≡ moved_on (session_in memory.old) (session_in memory.old).lines t }
{
    let head = head(memory);
    set_head(&mut memory[LINES], Head { clock: t, ..head });
}
