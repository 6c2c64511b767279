// The events, chunk after chunk, and the closing lines.

ghost use Rattle.std.specs.Prelude.{◌≡◌, IfSome, OnOk, length};
ghost use Rattle.std.specs.Io.KnownBytes.{Appends};
ghost use Rattle.corridor.specs.View.{Valid};
ghost use Rattle.session.specs.declared.chunks.TheConstants.{CHUNK_BYTES, CHUNK_NUMBERS, CHUNK_TEXT};
ghost use Rattle.session.specs.Chunks.{Reached};
ghost use Rattle.session.specs.Printing.{texts, closing_text, Answers, TellsChunks};

use crate::answers;
use corridor::Session;
use std::io;
use std::io::{ErrorKind, Read, Write};

const CHUNK_EVENTS: usize = 2048;

// Whole events, so only the last chunk of an input can end in a cut event.
const CHUNK_BYTES: usize = 20 * CHUNK_EVENTS;

// What the answers to a chunk may come to: six numbers a row, a row for each event, and one for each shift that may be made.
const CHUNK_NUMBERS: usize = 6 * (CHUNK_EVENTS + method::MOST_SHIFTS as usize);

// Their text.
const CHUNK_TEXT: usize = text::BYTES_PER_NUMBER * CHUNK_NUMBERS;

// The room for a chunk and its answers.
#[derive(Drop)]
struct Room {
    chunk: [u8; CHUNK_BYTES],
    numbers: [i64; CHUNK_NUMBERS],
    text: [u8; CHUNK_TEXT],
    ghost sizes: { (length chunk ≡ CHUNK_BYTES) × (length numbers ≡ CHUNK_NUMBERS) × (length text ≡ CHUNK_TEXT) },
}

// Each chunk's answers are written before the next chunk is read; the session is the one that the chunks left, also where a read or a write
// failed. A proved loop has to end, and nothing says that the input does: the loop counts its turns to a number that no run reaches.
fn answer_events<R: Read, W: Write>(
    input: &mut R,
    output: &mut W,
    session: &mut Session,
    room: &mut Room,
) -> io::Result<()>
    requires { Valid session.old }
    ensures reached { Reached session.old session.new }
    ensures told { OnOk result (IfSome (R.remaining input.old)
        (TellsChunks session.old session.new (W.contents output.old) (W.contents output.new))) }
{
    for _ in 0..u64::MAX {
        let size = filling::fill(input, &mut room.chunk)?;
        let told = answers::chunk(
            session,
            &room.chunk[..size],
            &mut room.numbers,
            &mut room.text,
        );
        output.write_all(&room.text[..told])?;
        if size < CHUNK_BYTES {
            return Ok(());
        }
    }
    Err(io::Error::from(ErrorKind::TimedOut))
}

// Prints the closing lines.
fn close<W: Write>(output: &mut W, session: &Session, room: &mut Room) -> io::Result<()>
    requires { Valid session.now }
    ensures { OnOk result (Appends (W.contents output.old) (W.contents output.new) (closing_text session.now)) }
{
    let size = answers::closing(session, &mut room.numbers, &mut room.text);
    output.write_all(&room.text[..size])
}

// Answers all events, and then prints the closing lines.
pub(crate) fn answer_all<R: Read, W: Write>(
    input: &mut R,
    output: &mut W,
    first: Session,
) -> io::Result<()>
    requires { Valid first }
    ensures { OnOk result (IfSome (R.remaining input.old)
        (Answers (texts first) (W.contents output.old) (W.contents output.new))) }
{
    let mut session = first;
    let mut room = Room {
        chunk: [0; CHUNK_BYTES],
        numbers: [0; CHUNK_NUMBERS],
        text: [0; CHUNK_TEXT],
    };
    answer_events(input, output, &mut session, &mut room)?;
    close(output, &session, &mut room)
}
