// What stands at an address in two boot tables, an older and a newer one. Of the tables only size and address words are read.
#![tactic(auto)]

ghost use Rattle.std.specs.Prelude.{Ok, ◌≡◌, ◌+◌, ◌^◌, ◌≤◌, ◌<◌};
ghost use Rattle.query.specs.Find.{latest, walked, walk_of, from_hits, find_answer, answer_of, found_bytes, found_start};
ghost use Rattle.query.specs.OneSection.{hit_in};

use boot_table::{TABLE_LIMIT, step_at};
use words::{ByteOrder, Refusal, TOP};

// Which of the two tables.
#[derive(Clone, Copy, Debug, PartialEq, Eq)]
pub enum Which {
    Older,
    Newer,
}

// The part of a table that stands at an address: from the byte for the address to the end of its section's data.
#[derive(Clone, Copy, Debug, PartialEq, Eq)]
pub struct TablePart {
    pub table: Which,
    pub offset: usize,
    pub length: usize,
}

// What finding answers of two well-formed tables: the part, or nothing where neither table covers the address, and how many
// bytes were read of both.
#[derive(Clone, Copy, Debug, PartialEq, Eq)]
pub struct Found {
    pub part: Option<TablePart>,
    pub read: usize,
}

// Why finding refuses: the older table's fault, or the newer's.
#[derive(Clone, Copy, Debug, PartialEq, Eq)]
pub enum FindRefusal {
    Older(Refusal),
    Newer(Refusal),
}

// Where a table covers an address: the part of it that begins at the byte for the address.
#[derive(Clone, Copy, Debug, PartialEq, Eq)]
struct Hit {
    offset: usize,
    length: usize,
}

// What the header walk over a table comes to: the last hit, if any, and how many bytes were read.
#[derive(Clone, Copy, Debug, PartialEq, Eq)]
struct Walk {
    hit: Option<Hit>,
    read: usize,
}

// The hit in a section of so many bytes from the address first on, whose data begins at start: its part begins at the byte
// for the address and runs to the end of the data. How far the address is past first is taken modulo 2^32: for an address
// below first that is size or more, since no section is past the top, and so one test tells. With two, tables whose
// sections stand in no order take half as long again (docs/BENCHMARK.md).
#[tactic(auto, using(crate::proofs::WalkLaws::not_covered, crate::proofs::WalkLaws::covered))]
fn hit_in(first: u32, size: usize, start: usize, address: u32) -> Option<Hit>
    requires { (first + size ≤ 2 ^ 32) × (start + size < 2 ^ 64) }
    ensures { result ≡ hit_in first size start address }
{
    let skip = ((TOP + address as u64 - first as u64) % TOP) as usize;
    if size <= skip {
        return None;
    }
    let offset = start + skip;
    let length = size - skip;
    Some(Hit { offset, length })
}

// The later of two hits, or the earlier where the later is none.
fn latest(earlier: Option<Hit>, later: Option<Hit>) -> Option<Hit>
    ensures { result ≡ latest earlier later }
{
    later.or(earlier)
}

// The header walk over a table for an address. It goes through to the end, whatever covers the address before.
#[tactic(auto, using(crate::proofs::WalkLaws::walk_long, crate::proofs::WalkLaws::walk_cut, crate::proofs::WalkLaws::walk_fault, crate::proofs::WalkLaws::walk_end, crate::proofs::WalkLaws::walk_start, crate::proofs::WalkLaws::walk_section, boot_table::proofs::StepLaws::section_of))]
fn walk_headers(table: &[u8], order: ByteOrder, address: u32) -> Result<Walk, Refusal>
    ensures { walk_of result ≡ walked order table.now address }
{
    if TABLE_LIMIT < table.len() {
        return Err(Refusal::TableLong);
    }
    if table.len() < 4 {
        return Err(Refusal::TableCut { place: 0 });
    }
    let mut at: usize = 4;
    let mut hit = None;
    let mut read: usize = 0;
    loop {
        let Some(section) = step_at(table, order, at)? else {
            return Ok(Walk {
                hit,
                read: read + 4,
            });
        };
        let here = hit_in(section.address, section.size, section.start, address);
        hit = latest(hit, here);
        read += 8;
        at = section.next;
    }
}

// The answer for the hits in two tables of which so many bytes were read. The newer goes before the older.
fn from_hits(older: Option<Hit>, newer: Option<Hit>, read: usize) -> Found
    ensures { answer_of (Ok result) ≡ from_hits older newer read }
{
    let part = match (older, newer) {
        (_, Some(Hit { offset, length })) => Some(TablePart {
            table: Which::Newer,
            offset,
            length,
        }),
        (Some(Hit { offset, length }), None) => Some(TablePart {
            table: Which::Older,
            offset,
            length,
        }),
        (None, None) => None,
    };
    Found { part, read }
}

// Finds what stands at an address: which table has it, and where.
#[tactic(auto, using(crate::proofs::FindLaws::find_first, crate::proofs::FindLaws::find_second, crate::proofs::FindLaws::find_both, crate::proofs::FindLaws::read_few))]
pub fn find(
    older: &[u8],
    newer: &[u8],
    order: ByteOrder,
    address: u32,
) -> Result<Found, FindRefusal>
    ensures { answer_of result ≡ find_answer order older.now newer.now address }
{
    let first = walk_headers(older, order, address).map_err(FindRefusal::Older)?;
    let second = walk_headers(newer, order, address).map_err(FindRefusal::Newer)?;
    Ok(from_hits(first.hit, second.hit, first.read + second.read))
}

// The part that stands at an address, as find tells it: of the newer table or of the older, from the byte for the address
// to the end of its section's data; or the empty part at the older's start.
pub fn part<'a>(older: &'a [u8], newer: &'a [u8], order: ByteOrder, address: u32) -> &'a [u8]
    ensures bytes { result.now ≡ found_bytes order older.now newer.now address }
    ensures start { result.ref_ptr ≡ found_start order older.now newer.now address older.entry.ref_ptr newer.entry.ref_ptr }
{
    let Ok(
        Found {
            part: Some(part),
            ..
        },
    ) = find(older, newer, order, address)
    else {
        return &older[..0];
    };
    let from = part.offset;
    let to = from + part.length;
    match part.table {
        Which::Newer => &newer[from..to],
        Which::Older => &older[from..to],
    }
}
