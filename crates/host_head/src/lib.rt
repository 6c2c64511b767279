// Whether what a session has beside its lines is in range, and no id stands twice. A host keeps a session in memory of its own and may have
// damaged it, so any numbers may stand there.

#![tactic(auto)]

ghost use Rattle.numbers.specs.Decides.{Decides};
ghost use Rattle.method.specs.computed.Sound.{Distinct};
ghost use Rattle.host_head.specs.Beside.{Beside};

use host_row::Head;

const MOST_LINES: usize = method::MOST_CONTRACTS as usize;

// Whether no id stands twice.
pub fn distinct(ids: &[u32]) -> bool
    ensures { Decides result (Distinct ids.now) }
{
    for (i, id) in ids.iter().enumerate() {
        if ids[i + 1..].contains(id) {
            return false;
        }
    }
    true
}

// Of what a session has beside its lines: `count` of its lines are in use. The ends are plain numbers, as the method has them.
pub fn in_range(h: Head) -> bool
    ensures { Decides result (Beside h) }
{
    h.count <= MOST_LINES
        && (1..=method::LONGEST_HOLD).contains(&h.hold.0)
        && h.end.0 <= method::LONGEST_SESSION
        && h.clock <= h.end
        && h.left <= method::MOST_SHIFTS
        && (1..=method::LARGEST_NEAR_SHARE).contains(&h.near.0)
}
