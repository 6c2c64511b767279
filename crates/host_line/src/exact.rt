// Whether a line's holds stand exactly where it presses while shifts are left.

ghost use Rattle.std.specs.Prelude.{◌≡◌, ◌&&◌, ltb};
ghost use Rattle.numbers.specs.Decides.{Decides};
ghost use Rattle.method.specs.words.Pressure.{presses};
ghost use Rattle.method.specs.words.Holds.{hold_of};
ghost use Rattle.method.specs.computed.Sound.{standing, Exact};
ghost use Rattle.pressure.specs.Asks.{JudgeableLine};

use method::{Hold, Holds, Line, Side};
use numbers::Millionths;

fn hold_of(side: Side, h: Holds) -> Hold
    ensures { result ≡ hold_of side h }
{
    match side {
        Side::Up => h.up,
        Side::Down => h.down,
    }
}

// Where no shift is left no hold stands, and no price is looked at. What pressure asks of a line is a clause and no type of it: any numbers may
// stand on a line, and its ranges are tested just before.
fn exact_on(side: Side, near: Millionths, left: u32, l: Line) -> bool
    requires { JudgeableLine near l }
    ensures { Decides result (standing (hold_of side l.holds) ≡ (ltb 0 left && presses side near l)) }
{
    let pressed = 0 < left && pressure::presses(side, near, l);
    hold_of(side, l.holds).is_some() == pressed
}

#[tactic(auto, unfolding(method::specs::computed::Sound::Exact))]
pub fn exact(near: Millionths, left: u32, l: Line) -> bool
    requires { JudgeableLine near l }
    ensures { Decides result (Exact near left l) }
{
    exact_on(Side::Up, near, left, l) && exact_on(Side::Down, near, left, l)
}
