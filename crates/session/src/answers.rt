// What the program says, as text at the start of a buffer: of a chunk of events, at the end, and of a refused table. The answer of each is how
// many bytes there are, as `text::line` and `text::lines` answer, which docs/PROMISES.md promises so: a slice would be cut from it here
// instead of at each write.

ghost use Rattle.std.specs.Prelude.{◌≡◌, ◌*◌, ◌≤◌, length};
ghost use Rattle.method.specs.declared.Row.TheVariants as RowOf;
ghost use Rattle.method.specs.told.Text.{line_text};
ghost use Rattle.corridor.specs.View.{Valid};
ghost use Rattle.counting.specs.Counted.{most_closing};
ghost use Rattle.feeding.specs.Feeding.{feed_needs, left_by};
ghost use Rattle.session.specs.Printing.{told_text, closing_text, Begins};

use corridor::Session;
use method::{Row, TableRefusal};
use text::{BYTES_PER_NUMBER, LINE_BYTES};

// A chunk of events. The session becomes the one that they leave.
pub(crate) fn chunk(s: &mut Session, events: &[u8], numbers: &mut [i64], buffer: &mut [u8]) -> usize
    requires { Valid s.old × (feed_needs (length events.now) ≤ length numbers.old)
        × (BYTES_PER_NUMBER * feed_needs (length events.now) ≤ length buffer.old) }
    ensures session_after { s.new ≡ left_by s.old events.now }
    ensures begins { Begins buffer.new result (told_text s.old events.now) }
{
    let count = counting::counted(s, events, numbers);
    text::lines(&numbers[..count], buffer)
}

// The closing lines.
pub(crate) fn closing(s: &Session, numbers: &mut [i64], buffer: &mut [u8]) -> usize
    requires { Valid s.now × (most_closing ≤ length numbers.old) × (BYTES_PER_NUMBER * most_closing ≤ length buffer.old) }
    ensures { Begins buffer.new result (closing_text s.now) }
{
    let count = counting::closed(s, numbers);
    text::lines(&numbers[..count], buffer)
}

// A refused table's line.
pub(crate) fn refusal(refused: TableRefusal, buffer: &mut [u8]) -> usize
    requires { LINE_BYTES ≤ length buffer.old }
    ensures { Begins buffer.new result (line_text (RowOf.RefusedTable refused.reason refused.line)) }
{
    text::line(
        rows::row_numbers(Row::RefusedTable(refused.reason, refused.line)),
        buffer,
        0,
    )
}
