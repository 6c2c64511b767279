// A whole session in one call, from a table and its events to the rows that they give; and the same in numbers alone, which `sundewcup_c`
// exports for C.

#![tactic(auto)]

ghost use Rattle.std.specs.Prelude.{◌≡◌, length};
ghost use Rattle.counting.specs.Counted.{number_in};
ghost use Rattle.sundewcup.specs.Running.{ran, ran_into};

use method::Row;
use rows::NoRoom;

// A row for each shift that may be made, and for each contract that there may be.
const MOST_ROWS: usize = (method::MOST_SHIFTS + method::MOST_CONTRACTS) as usize;

// The rows of the whole: the shifts and the refused events in turn, and a closing row for each contract; or the one row of a refused
// table. The room is worked out first: where it is not there, nothing is done.
pub fn run(table: &[u8], events: &[u8], out: &mut [i64]) -> Result<usize, NoRoom>
    ensures value { result ≡ ran (length out.old) table.now events.now }
    ensures out_after { out.new ≡ ran_into out.old table.now events.now }
{
    let needed = rows::needed(events.len(), MOST_ROWS);
    rows::room(out, needed)?;
    match corridor::open(table) {
        Err(refused) => {
            rows::write(out, 0, Row::RefusedTable(refused.reason, refused.line));
            Ok(6)
        }
        Ok(mut session) => {
            let told = counting::counted(&mut session, events, out);
            let closing = counting::closed(&session, &mut out[told..]);
            Ok(told + closing)
        }
    }
}

// `run` for C. The answer is how many numbers were written; where `out` is too short it is how many it would have to take, which is more
// than `out` has, and nothing is written.
pub fn sundewcup_run(table: &[u8], events: &[u8], out: &mut [i64]) -> usize
    ensures value { result ≡ number_in (ran (length out.old) table.now events.now) }
    ensures out_after { out.new ≡ ran_into out.old table.now events.now }
{
    counting::number_in(run(table, events, out))
}
