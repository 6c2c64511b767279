// A row of six numbers as a line of text, and all rows of a buffer, in a buffer of bytes that the caller lends.

#![tactic(auto)]

ghost use Rattle.std.specs.Prelude.{◌≡◌, [], ◌∷◌, ◌++◌, ◌+◌, ◌*◌, ◌≤◌, nat_abs, length};
ghost use Rattle.method.specs.told.Text.{ascii, signed_text};
ghost use Rattle.text.specs.Line.{
  letter,
  shift_text,
  refused_event_text,
  refused_table_text,
  closed_text,
  numbers_text,
  all_text,
  Put,
};

use method::Side;

// The longest line, a closing line, has five numbers of at most 20 bytes, and a byte after each.
pub const LINE_BYTES: usize = 110;

// A line has six numbers, so that these are enough for each.
pub const BYTES_PER_NUMBER: usize = 20;

// The place of a field where none is named.
const NO_FIELD: i64 = 0;

// A row comes as six numbers, as C gets it, so its kind is read back from the first of them. Any number but those of the first three kinds
// stands for a closing line.
enum Kind {
    Shift,
    RefusedEvent,
    RefusedTable,
    Closing,
}

impl From<i64> for Kind {
    ghost use Rattle.text.specs.Kinds.{kind_of};

    ghost from_gives = { λ n kind. kind ≡ kind_of n };

    fn from(n: i64) -> Kind {
        match n {
            1 => Kind::Shift,
            2 => Kind::RefusedEvent,
            3 => Kind::RefusedTable,
            _ => Kind::Closing,
        }
    }
}

// How far a number is from 0. The digits of a line come of the library's decimals; this is promised (docs/PROMISES.md) to whoever wants it by itself.
pub fn magnitude(n: i64) -> u64
    ensures { result ≡ nat_abs n }
{
    n.unsigned_abs()
}

// A text in the buffer from `at` on. Each function from here on that is lent the buffer answers the place after what it puts. A line is made where it
// goes: by `push_str` in a string of its own, copied from there, refused events took the program half as long again, measured; and `write!` may
// answer an error, and no line can fail.
fn put(buffer: &mut [u8], at: usize, text: &str) -> usize
    requires { at + length text.now ≤ length buffer.old }
    ensures { Put buffer.old at text.now buffer.new result }
{
    let end = at + text.len();
    buffer[at..end].copy_from_slice(text.as_bytes());
    end
}

// A number in decimals, and the byte that parts it from what follows.
fn put_number(buffer: &mut [u8], at: usize, n: i64, after: u8) -> usize
    requires { at + 21 ≤ length buffer.old }
    ensures put { Put buffer.old at (signed_text n ++ (after ∷ [])) buffer.new result }
    ensures upper_bound { result ≤ at + 21 }
{
    let end = put(buffer, at, itoa::Buffer::new().format(n));
    buffer[end] = after;
    end + 1
}

// U or D, by the number of the side, and a space.
fn side_letter(side: i64) -> &'static str
    ensures text { result.now ≡ letter side ++ ascii " " }
    ensures len { length result.now ≡ 2 }
{
    if side == Side::Up as i64 { "U " } else { "D " }
}

// A shift: its second, its side, the id of the line that called.
fn shift(row: [i64; 6], buffer: &mut [u8], at: usize) -> usize
    requires { at + LINE_BYTES ≤ length buffer.old }
    ensures put { Put buffer.old at (shift_text row) buffer.new result }
    ensures upper_bound { result ≤ at + 44 }
{
    let [_, second, side, id, ..] = row;
    let after_second = put_number(buffer, at, second, b' ');
    let after_side = put(buffer, after_second, side_letter(side));
    put_number(buffer, after_side, id, b'\n')
}

// A refused event: its number.
fn refused_event(row: [i64; 6], buffer: &mut [u8], at: usize) -> usize
    requires { at + LINE_BYTES ≤ length buffer.old }
    ensures put { Put buffer.old at (refused_event_text row) buffer.new result }
    ensures upper_bound { result ≤ at + 23 }
{
    let [_, why, ..] = row;
    let after_letter = put(buffer, at, "R ");
    put_number(buffer, after_letter, why, b'\n')
}

// A refused table: the number, the line, and the field where one is named.
fn refused_table(row: [i64; 6], buffer: &mut [u8], at: usize) -> usize
    requires { at + LINE_BYTES ≤ length buffer.old }
    ensures put { Put buffer.old at (refused_table_text row) buffer.new result }
    ensures upper_bound { result ≤ at + 65 }
{
    let [_, why, place, field, ..] = row;
    let after_letter = put(buffer, at, "T ");
    let after_why = put_number(buffer, after_letter, why, b' ');
    if field == NO_FIELD {
        put_number(buffer, after_why, place, b'\n')
    } else {
        let after_place = put_number(buffer, after_why, place, b' ');
        put_number(buffer, after_place, field, b'\n')
    }
}

// A closing line: the id, both limits, both interest bounds.
fn closing(row: [i64; 6], buffer: &mut [u8], at: usize) -> usize
    requires { at + LINE_BYTES ≤ length buffer.old }
    ensures put { Put buffer.old at (closed_text row) buffer.new result }
    ensures upper_bound { result ≤ at + 105 }
{
    let [_, id, lower, upper, lowerbound, upperbound] = row;
    let after_id = put_number(buffer, at, id, b' ');
    let after_lower = put_number(buffer, after_id, lower, b' ');
    let after_upper = put_number(buffer, after_lower, upper, b' ');
    let after_lowerbound = put_number(buffer, after_upper, lowerbound, b' ');
    put_number(buffer, after_lowerbound, upperbound, b'\n')
}

// One row, by its kind, in the buffer from `at` on, which is the caller's, so that its place goes beside it. The answer is the place after the row.
// It is made part of its callers, since a row is large, and handing it over costs each line.
#[inline(always)]
pub fn line(row: [i64; 6], buffer: &mut [u8], at: usize) -> usize
    requires { at + LINE_BYTES ≤ length buffer.old }
    ensures put { Put buffer.old at (numbers_text row) buffer.new result }
    ensures upper_bound { result ≤ at + LINE_BYTES }
{
    match Kind::from(row[0]) {
        Kind::Shift => shift(row, buffer, at),
        Kind::RefusedEvent => refused_event(row, buffer, at),
        Kind::RefusedTable => refused_table(row, buffer, at),
        Kind::Closing => closing(row, buffer, at),
    }
}

// All rows, line after line from the buffer's start on.
pub fn lines(numbers: &[i64], buffer: &mut [u8]) -> usize
    requires { BYTES_PER_NUMBER * length numbers.now ≤ length buffer.old }
    ensures { Put buffer.old 0 (all_text numbers.now) buffer.new result }
{
    let (rows, _) = numbers.as_chunks::<6>();
    let mut at = 0;
    for row in rows {
        at = line(*row, buffer, at);
    }
    at
}
