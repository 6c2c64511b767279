// The closing rows: what stands at the end, one row for each contract, in the table's order.

#![tactic(auto)]

ghost use Rattle.std.specs.Prelude.{◌≡◌, length};
ghost use Rattle.corridor.specs.View.{Valid};
ghost use Rattle.closing.specs.Closing.{closed, closed_into};

use corridor::Session;
use rows::NoRoom;

// Where the room is not there, nothing is written.
#[tactic(auto, unfolding(crate::specs::Closing::closed, crate::specs::Closing::closed_into))]
pub fn close(s: &Session, out: &mut [i64]) -> Result<usize, NoRoom>
    requires { Valid s.now }
    ensures value { result ≡ closed s.now (length out.old) }
    ensures out_after { out.new ≡ closed_into s.now out.old }
{
    let lines = &s.lines[..s.count];
    let needed = 6 * lines.len();
    rows::room(out, needed)?;
    for (i, l) in lines.iter().enumerate() {
        rows::write(out, 6 * i, line_answers::closing_row(*l));
    }
    Ok(needed)
}
