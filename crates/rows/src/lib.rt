// Rows of six numbers, and rows written into a buffer that the caller lends.

#![tactic(auto)]

ghost use Rattle.std.specs.Prelude.{◌≡◌, IfOk, IfErr, map, ◌+◌, ◌*◌, ◌≤◌, ◌<◌, pos, length};
ghost use Rattle.method.specs.told.Refusals.{table_number, field_number, event_number};
ghost use Rattle.method.specs.told.Rows.{row_numbers, numbers_of};
ghost use Rattle.rows.specs.Buffer.{written, needed};
ghost use Rattle.rows.specs.Fits.{Fits};

use method::{EventReason, Row, ShiftLine, TableReason};

// Why nothing was done: the lent buffer would have to take so many numbers. Where there is room, the answer is how many were written.
#[derive(Clone, Copy, PartialEq, Eq)]
pub struct NoRoom {
    pub needed: usize,
}

// Whether so many numbers fit; where not, why nothing is done.
pub fn room(out: &[i64], needed: usize) -> Result<(), NoRoom>
    ensures fits { IfOk result (λ u. needed ≤ length out.now) }
    ensures short { IfErr result (λ e. (e.needed ≡ needed) × (length out.now < needed)) }
{
    if out.len() < needed {
        Err(NoRoom { needed })
    } else {
        Ok(())
    }
}

// What `as` gives, as a function, since docs/PROMISES.md promises one.
#[tactic(auto, unfolding(method::specs::told::Refusals::event_number))]
pub fn event_number(why: EventReason) -> i64
    ensures { result ≡ pos (event_number why) }
{
    why as i64
}

#[tactic(auto, unfolding(method::specs::told::Refusals::table_number))]
fn table_number(why: TableReason) -> i64
    ensures { result ≡ pos (table_number why) }
{
    // One variant has a field, so that no `as` gives the numbers.
    match why {
        TableReason::Length => 1,
        TableReason::Edition => 2,
        TableReason::Header => 3,
        TableReason::Key => 4,
        TableReason::Field(_) => 5,
        TableReason::Id => 6,
        TableReason::Exponent => 7,
        TableReason::HalfMove => 8,
        TableReason::Corridor => 9,
    }
}

// The place in the contract's line of the field at fault, and 0 where no field is named.
#[tactic(auto, unfolding(method::specs::told::Refusals::field_number, method::specs::told::Refusals::field_place))]
fn field_number(why: TableReason) -> i64
    ensures { result ≡ pos (field_number why) }
{
    match why {
        TableReason::Field(f) => f as i64,
        _ => 0,
    }
}

// A row in six numbers: its kind, its values in the printed order and, of a refused event, its place; with 0 where nothing stands. Each kind has
// values, so that no `as` gives its number, and a place has to fit, so that this is no `From`.
#[tactic(auto, unfolding(method::specs::told::Rows::row_numbers))]
pub fn row_numbers(row: Row) -> [i64; 6]
    requires { Fits row }
    ensures { result ≡ row_numbers row }
{
    match row {
        Row::Shift(c) => [
            1,
            i64::from(c.second.0),
            c.side as i64,
            i64::from(c.id),
            0,
            0,
        ],
        Row::RefusedEvent(why, place) => [2, event_number(why), place as i64, 0, 0, 0],
        Row::RefusedTable(why, line) => [
            3,
            table_number(why),
            i64::from(line),
            field_number(why),
            0,
            0,
        ],
        Row::Closed(c) => [
            4,
            i64::from(c.id),
            c.lower.0,
            c.upper.0,
            c.lowerbound.0,
            c.upperbound.0,
        ],
    }
}

// A row written into the buffer from `at` on. The buffer is the caller's, since nothing is allocated, and so its place goes beside it.
pub fn write(out: &mut [i64], at: usize, row: Row)
    requires { (at + 6 ≤ length out.old) × Fits row }
    ensures { out.new ≡ written out.old at (row_numbers row) }
{
    out[at..at + 6].copy_from_slice(&row_numbers(row));
}

// The shift lines, row by row; the answer is the place after them.
pub fn write_shifts(out: &mut [i64], at: usize, shifts: &[ShiftLine]) -> usize
    requires { at + 6 * length shifts.now ≤ length out.old }
    ensures value { result ≡ at + 6 * length shifts.now }
    ensures out_after { out.new ≡ written out.old at (numbers_of (map Row.Shift shifts.now)) }
{
    for (i, c) in shifts.iter().enumerate() {
        write(out, at + 6 * i, Row::Shift(*c));
    }
    at + 6 * shifts.len()
}

// The room for the rows of so many bytes of events: a row for each event, and as many more.
pub fn needed(size: usize, more: usize) -> usize
    requires { more ≤ 100 }
    ensures { result ≡ needed size more }
{
    6 * (size.div_ceil(20) + more)
}
