// Quotients rounded toward a side.

ghost use Rattle.std.specs.Prelude.{◌≡◌, pos, nat_abs, ◌<ℤ◌};
ghost use Rattle.bounds.specs.Rounding.{rounded};

use method::Side;
use numbers::Steps;

// n / d, up to the ceiling or down to the floor.
pub fn rounded(side: Side, n: i64, d: i64) -> Steps
    requires { pos 0 <ℤ d }
    ensures { result.0 ≡ rounded side n (nat_abs d) }
{
    match side {
        Side::Up => Steps(numbers::ceiling(n, d)),
        Side::Down => Steps(numbers::floor(n, d)),
    }
}
