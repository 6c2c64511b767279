// The morning table: bytes to opened lines, or a refusal with its line.

#![tactic(auto)]

ghost use Rattle.std.specs.Prelude.{◌≡◌, [], ◌≤◌, length};
ghost use Rattle.method.specs.words.Layout.{header_of, contracts_start, table_length, contracts_at};
ghost use Rattle.method.specs.computed.Opening.{id_good, open_line};
ghost use Rattle.method.specs.computed.Table.{open_lines, opening};
ghost use Rattle.table.specs.Opened.{refusal, opened_as};
ghost use Rattle.table.specs.Asks.{Ready, Lined};

use arrayvec::ArrayVec;
use method::{Contract, Header, Key, Line, TableReason, TableRefusal};
use numbers::{Millionths, Seconds};

// ---- one contract after the lines before it

// An id that is not 0 and stands on none of the lines before it (refusal 6).
#[tactic(auto, unfolding(method::specs::computed::Opening::id_good))]
fn id_good(lines: &[Line], id: u32) -> bool
    ensures { result ≡ id_good lines.now id }
{
    id != 0 && !lines.iter().any(|line| line.terms.id == id)
}

#[tactic(auto, unfolding(method::specs::computed::Opening::open_line))]
fn open_line(
    shift: Millionths,
    keys: &[Key],
    lines: &[Line],
    c: Contract,
) -> Result<Line, TableReason>
    requires { Ready shift keys.now }
    ensures { result ≡ open_line shift keys.now lines.now c }
{
    table_ranges::fields(c).map_err(TableReason::Field)?;
    if !id_good(lines, c.id) {
        return Err(TableReason::Id);
    }
    let y = growth::exponent(growth::rate_at(keys, c.days), c.days);
    // The end is a plain number, as the method has it.
    if method::MOST_EXPONENT < y.0 {
        return Err(TableReason::Exponent);
    }
    table_line::opened_with(
        c.width,
        table_line::terms(shift, y, c),
        table_line::market(c),
    )
}

// ---- the whole table

// What a table opens: its lines, and the header's numbers.
#[derive(Clone, Drop)]
pub struct OpenedTable {
    pub lines: ArrayVec<Line, 32>,
    pub end: Seconds,
    pub hold: Seconds,
    pub most: u32,
    pub near: Millionths,
}

// Each contract line in turn. It stays a function by itself: as a part of `open` its lines would be laid out on the stack for every table that is
// refused before them too, which took such a table a quarter longer, measured.
#[inline(never)]
fn open_lines(bytes: &[u8], h: Header, keys: &[Key]) -> Result<OpenedTable, TableRefusal>
    requires { Lined h keys.now (length bytes.now) }
    ensures { result ≡ opened_as (open_lines h keys.now 1 [] (contracts_at bytes.now (contracts_start h) h.contracts)) }
{
    let mut lines = ArrayVec::new();
    let start = 40 + 8 * h.keys as usize;
    for record in bytes[start..start + 40 * h.contracts as usize].chunks_exact(40) {
        let line = lines.len() as u32 + 1;
        let contract = table_records::contract(record, 0);
        let opened = open_line(h.shift, keys, &lines, contract).map_err(|reason| TableRefusal {
            reason,
            line,
        })?;
        lines.push(opened);
    }
    Ok(OpenedTable {
        lines,
        end: h.end,
        hold: h.hold,
        most: h.most,
        near: h.near,
    })
}

// Where the table ends that these bytes begin, as its counts say. Bytes and no array of 40: docs/PROMISES.md promises it of any that are long enough.
pub fn ends_at(bytes: &[u8]) -> usize
    requires { 40 ≤ length bytes.now }
    ensures { result ≡ table_length (header_of bytes.now) }
{
    table_ranges::table_length(table_records::header(bytes))
}

fn in_header(reason: TableReason) -> TableRefusal
    ensures { result ≡ refusal reason 0 }
{
    TableRefusal { reason, line: 0 }
}

// Opens a morning table. Any bytes of any length get an answer, and nothing is worked out from a count before it is checked.
#[tactic(auto, unfolding(method::specs::computed::Table::opening, crate::specs::Opened::opened_as))]
pub fn open(bytes: &[u8]) -> Result<OpenedTable, TableRefusal>
    ensures { result ≡ opened_as (opening bytes.now) }
{
    if bytes.len() < 40 {
        return Err(in_header(TableReason::Length));
    }
    let h = table_records::header(bytes);
    if h.edition != 1 {
        return Err(in_header(TableReason::Edition));
    }
    if !table_ranges::header_good(h) {
        return Err(in_header(TableReason::Header));
    }
    if !table_ranges::laid_out(h, bytes.len()) {
        return Err(in_header(TableReason::Length));
    }
    let keys = table_records::keys(bytes, h.keys as usize);
    if let Some(line) = table_ranges::first_bad_key(&keys) {
        return Err(TableRefusal {
            reason: TableReason::Key,
            line,
        });
    }
    open_lines(bytes, h, &keys)
}
