// Reading the bytes of the table.

ghost use Rattle.std.specs.Prelude.{◌≡◌, ◌≤◌, IfOk, length};
ghost use Rattle.method.specs.words.Layout.{header_of};
ghost use Rattle.session.specs.Reading.{table_end, Within, TableFrom};

use filling::fill;
use std::io;
use std::io::Read;

// A table of as many keys and contracts as there may be.
pub(crate) const LONGEST_TABLE: usize = 40
    + 8 * method::MOST_KEYS as usize
    + 40 * method::MOST_CONTRACTS as usize;

// How much is read as the table, by its header. Where the counts say more than the longest table, they are out of range, and the header by
// itself has the same answer.
#[tactic(auto, unfolding(crate::specs::Reading::table_end))]
fn table_end(header: &[u8]) -> usize
    requires { 40 ≤ length header.now }
    ensures { result ≡ table_end (header_of header.now) }
{
    let end = table::ends_at(header);
    if LONGEST_TABLE < end { 40 } else { end }
}

// Reads no further than the counts say, since what follows is events. Input that ends earlier is a shorter table.
pub(crate) fn table<R: Read>(input: &mut R, room: &mut [u8; LONGEST_TABLE]) -> io::Result<usize>
    ensures within { Within result room.new }
    ensures table { IfOk result (λ n. TableFrom (R.remaining input.old) (R.remaining input.new) n room.new) }
{
    let got = fill(input, &mut room[..40])?;
    if got < 40 {
        return Ok(got);
    }
    let end = table_end(&room[..40]);
    let more = fill(input, &mut room[40..end])?;
    Ok(40 + more)
}
