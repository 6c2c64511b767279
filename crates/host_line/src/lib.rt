// Whether a line is as in every session. A host keeps a session in memory of its own and may have damaged it, so any numbers may stand on a
// line, and what the methods of a session ask of it is decided.

#![tactic(auto)]

ghost use Rattle.std.specs.Prelude.{◌≤◌};
ghost use Rattle.numbers.specs.Decides.{Decides};
ghost use Rattle.method.specs.words.Ranges.{most_shifts, largest_near_share};
ghost use Rattle.method.specs.computed.Rooms.{Room};
ghost use Rattle.method.specs.computed.Sound.{Exact};

use method::Line;
use numbers::Millionths;

mod exact;
mod room;

// Its ranges, and holds exactly where it presses. Pressure is worked out only once the ranges are known. The near share, the shifts left and
// the most that may still be made, by which the ranges go, are those of its session, which are in range. They are three numbers, as the
// method's definitions take them: a struct would be taken apart at once.
pub fn line(near: Millionths, left: u32, most: u32, l: Line) -> bool
    requires { (most ≤ most_shifts) × (near.0 ≤ largest_near_share) }
    ensures { Decides result (Room most l × Exact near left l) }
{
    room::room(most, l) && exact::exact(near, left, l)
}
