// Program `session`: a table and then its events from standard input; shifts, refusals and closing lines to standard output.
//
// What standard input has no contract can say. So the program is written for any input and any output, and the contract of `answer_whole` says
// what it wrote, where it answers `Ok`, for an input whose bytes are known: what the method says is written for them. Where a read fails,
// nothing more is printed, and no closing lines: a failure is not the end of the input. Where a write fails, the program stops. Its exit
// status is 0 all the same (METHOD 22.9); an output that ends otherwise than in a `T` line or the last closing line tells it.

#![tactic(auto)]

ghost use Rattle.std.specs.Prelude.{IfSome, OnOk};
ghost use Rattle.std.specs.Io.KnownBytes.{Appends};
ghost use Rattle.method.specs.declared.Row.TheVariants as RowOf;
ghost use Rattle.method.specs.told.Text.{line_text};
ghost use Rattle.session.specs.Printing.{printed, Answers, AnswersWhole};

use method::TableRefusal;
use std::io;
use std::io::{Read, Write};

mod answers;
mod chunks;
mod reading;

// A refused table's line, and nothing more.
fn print_refusal<W: Write>(output: &mut W, refused: TableRefusal) -> io::Result<()>
    ensures { OnOk result (Appends (W.contents output.old) (W.contents output.new)
        (line_text (RowOf.RefusedTable refused.reason refused.line))) }
{
    let mut buffer = [0; text::LINE_BYTES];
    let size = answers::refusal(refused, &mut buffer);
    output.write_all(&buffer[..size])
}

// Opens the table, and answers what follows it.
fn answer_input<R: Read, W: Write>(table: &[u8], input: &mut R, output: &mut W) -> io::Result<()>
    ensures { OnOk result (IfSome (R.remaining input.old)
        (Answers (printed table.now) (W.contents output.old) (W.contents output.new))) }
{
    match corridor::open(table) {
        Err(refused) => print_refusal(output, refused),
        Ok(session) => chunks::answer_all(input, output, session),
    }
}

// Answers an input from its first byte on.
fn answer_whole<R: Read, W: Write>(input: &mut R, output: &mut W) -> io::Result<()>
    ensures { OnOk result (IfSome (R.remaining input.old)
        (AnswersWhole (W.contents output.old) (W.contents output.new))) }
{
    let mut room = [0; reading::LONGEST_TABLE];
    let size = reading::table(input, &mut room)?;
    answer_input(&room[..size], input, output)
}

fn main(rt: HostRuntime) {
    let _ = answer_whole(&mut rt.stdin(), &mut rt.stdout());
}
