// Addresses that take one write: the first section of a table that stores one of them again.
// Sections are held against sections, and what two of them share against the map's records; no loop goes by addresses.
#![tactic(auto)]

ghost use Rattle.std.specs.Prelude.{◌≡◌, ◌+◌, ◌^◌, ◌≤◌, ◌<◌, min, max, take};
ghost use Rattle.region_map.specs.Map.{once};
ghost use Rattle.boot_table.specs.Table.{reading};
ghost use Rattle.boot_table.specs.Form.{WellFormed};
ghost use Rattle.one_write.specs.Once.{written, first_repeat};
ghost use Rattle.one_write.specs.Walk.{Meets, Between, earlier_with};

use boot_table::{Section, whole_step};
use region_map::once_from;
use words::{ByteOrder, TOP};

// The addresses from first on and below end.
#[derive(Clone, Copy)]
struct Span {
    first: u64,
    end: u64,
    ghost within: { end ≤ 2 ^ 32 },
}

// The sections before one: how many there are, and that their addresses lie from low on and below high.
#[derive(Clone, Copy, Debug, PartialEq, Eq)]
struct Earlier {
    sections: usize,
    low: u64,
    high: u64,
}

// The addresses of a section.
fn span_of(section: Section) -> Span
    requires { section.address + section.size ≤ 2 ^ 32 }
    ensures { (result.first ≡ section.address) × (result.end ≡ section.address + section.size) }
{
    let first = section.address as u64;
    Span {
        first,
        end: first + section.size as u64,
    }
}

// Whether two sections, by their addresses, share one of kind 3. Most sections share no address, and then the map is not
// looked at.
fn shares_once(map: &[u8], span: Span, other: Span) -> bool
    ensures { Meets (once map.now) (max other.first span.first) (min other.end span.end) result }
{
    let from = other.first.max(span.first);
    let to = other.end.min(span.end);
    if to <= from {
        return false;
    }
    once_from(map, from) < to
}

// Whether one of the first sections of a table, as many as are given, stores an address of a span that takes one write.
fn stored_before(map: &[u8], table: &[u8], order: ByteOrder, sections: usize, span: Span) -> bool
    requires { WellFormed order table.now }
    ensures { Meets (written map.now (take sections (reading order table.now).sections)) span.first span.end result }
{
    let mut offset: usize = 4;
    for _ in 0..sections {
        let Some(section) = whole_step(table, order, offset) else {
            return false;
        };
        if shares_once(map, span, span_of(section)) {
            return true;
        }
        offset = section.next;
    }
    false
}

// Whether the section after the earlier ones, which has the addresses of a span, stores an address of kind 3 again.
// One that begins where all of them have ended, or ends before all of them begin, does not; nor does one without such an
// address. Only another is held against each.
#[tactic(auto, using(crate::proofs::WalkLaws::free_meets, crate::proofs::WalkLaws::plain_meets))]
fn repeats(map: &[u8], table: &[u8], order: ByteOrder, earlier: Earlier, span: Span) -> bool
    requires well_formed { WellFormed order table.now }
    requires between { Between (take earlier.sections (reading order table.now).sections) earlier.low earlier.high }
    ensures { Meets (written map.now (take earlier.sections (reading order table.now).sections)) span.first span.end result }
{
    if earlier.high <= span.first {
        return false;
    }
    if span.end <= earlier.low {
        return false;
    }
    if span.end <= once_from(map, span.first) {
        return false;
    }
    stored_before(map, table, order, earlier.sections, span)
}

// The earlier sections, and one more with the addresses of a span.
fn earlier_with(earlier: Earlier, span: Span) -> Earlier
    requires { earlier.sections < 2 ^ 32 }
    ensures { result ≡ earlier_with earlier span.first span.end }
{
    Earlier {
        sections: earlier.sections + 1,
        low: earlier.low.min(span.first),
        high: earlier.high.max(span.end),
    }
}

// The offset of the first section of a table that stores an address of kind 3 which an earlier one has stored, if there is
// one.
#[tactic(auto, using(crate::proofs::WalkLaws::plain_table))]
pub fn first_repeat(map: &[u8], table: &[u8], order: ByteOrder) -> Option<usize>
    requires { WellFormed order table.now }
    ensures { result ≡ first_repeat order map.now table.now }
{
    if once_from(map, 0) == TOP {
        return None;
    }
    let mut offset: usize = 4;
    let mut earlier = Earlier {
        sections: 0,
        low: TOP,
        high: 0,
    };
    loop {
        let Some(section) = whole_step(table, order, offset) else {
            return None;
        };
        let span = span_of(section);
        if repeats(map, table, order, earlier, span) {
            return Some(offset);
        }
        earlier = earlier_with(earlier, span);
        offset = section.next;
    }
}
