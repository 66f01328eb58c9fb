// The boot table: one walk step, and the form of a whole table. Its header words are read in the byte order that is given.
#![tactic(auto)]

ghost use Rattle.std.specs.Prelude.{Ok, ◌≡◌, ◌+◌, ◌^◌, ◌≤◌, ◌<◌, length, ltb};
ghost use Rattle.words.specs.Header.{header_at};
ghost use Rattle.boot_table.specs.Table.{entry_of, step_of, step_at, read_on};
ghost use Rattle.boot_table.specs.Form.{form_of, answer_of};

use words::{ByteOrder, Refusal, TOP, header_at, padded};

// How many bytes a table has at most.
pub const TABLE_LIMIT: usize = 16_777_216;

// A section at an offset: its data begins at start, and after its pads next stands.
#[derive(Clone, Copy, Debug, PartialEq, Eq)]
pub struct Section {
    pub address: u32,
    pub size: usize,
    pub start: usize,
    pub next: usize,
}

// How many sections and data bytes a table has.
#[derive(Clone, Copy, Debug, PartialEq, Eq)]
pub struct Counts {
    pub sections: usize,
    pub bytes: usize,
}

// The entry word of a table.
pub fn entry_of(table: &[u8], order: ByteOrder) -> u32
    requires { 4 ≤ length table.now }
    ensures { result ≡ entry_of order table.now }
{
    header_at(table, order, 0)
}

// The size word of the section at an offset: how many data bytes it has.
fn size_at(table: &[u8], order: ByteOrder, at: usize) -> u32
    requires { at + 4 ≤ length table.now }
    ensures { result ≡ header_at order table.now at }
{
    header_at(table, order, at)
}

// The address word of the section at an offset.
fn address_at(table: &[u8], order: ByteOrder, at: usize) -> u32
    requires { at + 8 ≤ length table.now }
    ensures { result ≡ header_at order table.now (at + 4) }
{
    header_at(table, order, at + 4)
}

// Whether address plus size is over 2^32. The size is taken from 2^32, since with the sum the compiled walk is slower.
pub fn is_past_top(address: u32, size: u32) -> bool
    ensures { result ≡ ltb (2 ^ 32) (address + size) }
{
    TOP - (size as u64) < address as u64
}

// The walk step: the section at an offset of a table, nothing at its end, or a fault. Of a section it reads the size and the
// address, never data or pads.
pub fn step_at(table: &[u8], order: ByteOrder, at: usize) -> Result<Option<Section>, Refusal>
    ensures { step_of result ≡ step_at order table.now at }
{
    let cut = Err(Refusal::TableCut { place: at });
    if table.len() < at {
        return cut;
    }
    let room = table.len() - at;
    if room < 4 {
        return cut;
    }
    // Widened before it is compared: else the compiled walk widens it once more on the way to the next section.
    let word = size_at(table, order, at);
    let size = word as usize;
    if size == 0 {
        if room == 4 {
            return Ok(None);
        }
        return Err(Refusal::BytesAfter { place: at + 4 });
    }
    // Room for the header words first, then for data and pads: one test of the sum would make the walk slower.
    if room < 8 {
        return cut;
    }
    let start = at + 8;
    let padded = padded(word);
    if table.len() - start < padded {
        return cut;
    }
    let address = address_at(table, order, at);
    if is_past_top(address, word) {
        return Err(Refusal::PastTop { place: at });
    }
    let next = start + padded;
    Ok(Some(Section {
        address,
        size,
        start,
        next,
    }))
}

// The walk step of a table that has no fault from the offset on: only the end is told from a section.
pub fn whole_step(table: &[u8], order: ByteOrder, at: usize) -> Option<Section>
    requires { (read_on order table.now at).fault ≡ 0 }
    ensures { step_of (Ok result) ≡ step_at order table.now at }
{
    let word = size_at(table, order, at);
    let size = word as usize;
    if size == 0 {
        return None;
    }
    let start = at + 8;
    let address = address_at(table, order, at);
    let next = start + padded(word);
    Some(Section {
        address,
        size,
        start,
        next,
    })
}

// The form of a table: its limit, and then its first fault in table order.
pub fn form_of(table: &[u8], order: ByteOrder) -> Result<Counts, Refusal>
    ensures { answer_of result ≡ form_of order table.now }
{
    if TABLE_LIMIT < table.len() {
        return Err(Refusal::TableLong);
    }
    if table.len() < 4 {
        return Err(Refusal::TableCut { place: 0 });
    }
    let mut at: usize = 4;
    let mut sections: usize = 0;
    let mut bytes: usize = 0;
    loop {
        let Some(section) = step_at(table, order, at)? else {
            return Ok(Counts { sections, bytes });
        };
        sections += 1;
        bytes += section.size;
        at = section.next;
    }
}
