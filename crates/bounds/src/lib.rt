// Market bounds and interest bounds of a line; beside them the floor of one step under its lower limit, and rounding toward a side.

#![tactic(auto)]

ghost use Rattle.std.specs.Prelude.{◌≡◌, ◌≤◌};
ghost use Rattle.numbers.specs.Ranges.{Within};
ghost use Rattle.method.specs.words.Bounds.{market_bound, factor, interest, bound};
ghost use Rattle.method.specs.computed.Rooms.{largest_reach, largest_factor, largest_market_bound};
ghost use Rattle.bounds.specs.Asks.{Drawn};

use method::{Factors, Market, Side};
use numbers::{Billionths, Steps};

pub mod limits;
pub mod rounding;

// Centre plus or minus a level's half-width.
pub fn market_bound(side: Side, centre: Steps, half: Steps) -> Steps
    requires { Within largest_reach centre.0 × Within largest_reach half.0 }
    ensures { result.0 ≡ market_bound side centre half }
{
    match side {
        Side::Up => Steps(centre.0 + half.0),
        Side::Down => Steps(centre.0 - half.0),
    }
}

// The factor of a market bound, by its own sign: of the upper one up from 0 on and down below, of the lower one the other way round.
#[tactic(auto, unfolding(method::specs::words::Bounds::factor))]
fn factor(side: Side, f: Factors, z: Steps) -> Billionths
    ensures { result.0 ≡ factor side f z.0 }
{
    match (side, z < Steps(0)) {
        (Side::Up, true) | (Side::Down, false) => f.down,
        _ => f.up,
    }
}

// A market bound by its factor, rounded outward.
#[tactic(auto, unfolding(method::specs::words::Bounds::interest))]
fn interest(side: Side, k: Billionths, z: Steps) -> Steps
    requires { (k.0 ≤ largest_factor) × Within largest_market_bound z.0 }
    ensures { result.0 ≡ interest side k.0 z.0 }
{
    // A factor is far below the largest `i64`, so that `as` loses nothing, and a test of it would never fail.
    rounding::rounded(side, z.0 * k.0 as i64, 1_000_000_000)
}

// The interest bound of a side. What it asks is a clause: a market comes out of a host's memory too, where any number may stand.
#[tactic(auto, using(crate::proofs::Drawing::drawn), unfolding(method::specs::words::Bounds::outward, method::specs::words::Bounds::bound))]
pub fn bound(side: Side, f: Factors, m: Market) -> Steps
    requires { Drawn f m }
    ensures { result.0 ≡ bound side f m }
{
    let z = market_bound(side, m.centre, m.half1);
    interest(side, factor(side, f, z), z)
}
