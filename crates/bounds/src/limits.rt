// The floor of one step under a lower limit, at opening and at every shift down.

ghost use Rattle.std.specs.Prelude.{◌≡◌};
ghost use Rattle.method.specs.words.Opening.{floored};

use method::Limits;
use numbers::Steps;

// Where negative prices are not permitted, a lower limit below 1 becomes 1 and is frozen.
#[tactic(auto, unfolding(method::specs::words::Opening::floored))]
pub fn floored(permitted: bool, k: Limits) -> Limits
    ensures { result ≡ floored permitted k }
{
    if !permitted && k.lower < Steps(1) {
        Limits {
            lower: Steps(1),
            frozen: true,
            ..k
        }
    } else {
        k
    }
}
