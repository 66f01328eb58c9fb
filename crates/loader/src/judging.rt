// Judging a table's form and the map rule in one walk, which remembers how far addresses are open.
ghost use Rattle.std.specs.Prelude.{◌≡◌, ◌≤◌, ◌<◌, ◌^◌, Ok};
ghost use Rattle.boot_table.specs.Form.{formed, form_of};
ghost use Rattle.loader.specs.Load.{accepted, open_answer, answer_of};
ghost use Rattle.loader.specs.Judging.{Clear, ClearPast, Open, Lengthened, OpenTo, Counted, WalkedOn};

use crate::Summary;
use boot_table::{TABLE_LIMIT, entry_of, form_of, step_at};
use region_map::{is_open, permitted_until, reserved_from};
use words::{ByteOrder, Refusal};

// ---- open stretches

// A stretch of open addresses, from one on and up to another. Those after them, up to clear, are in no reserved record.
#[derive(Clone, Copy, Debug, PartialEq, Eq)]
struct Stretch {
    from: u64,
    until: u64,
    clear: u64,
}

// How far the addresses from one on are in no reserved record: as far as is known, or else as is found.
fn clear_past(map: &[u8], known: u64, address: u64) -> u64
    requires { (address < 2 ^ 32) × Clear map.now address known }
    ensures { ClearPast map.now address result }
{
    if address < known {
        return known;
    }
    reserved_from(map, address)
}

// The stretch, lengthened from record to record until it reaches end or an address that is not open.
fn lengthen(map: &[u8], stretch: Stretch, end: u64) -> Stretch
    requires { (end ≤ 2 ^ 32) × Open map.now stretch }
    ensures { Lengthened map.now stretch end result }
{
    let mut longer = stretch;
    while longer.until < end {
        longer.clear = clear_past(map, longer.clear, longer.until);
        let next = permitted_until(map, longer.until).min(longer.clear);
        if next <= longer.until {
            return longer;
        }
        longer.until = next;
    }
    longer
}

// A stretch that holds the addresses from one on, to end or up to the lowest that is not open: the known stretch,
// lengthened, where the address is in it or right after it, or else a new one. No address below reserved is in a reserved
// record, so that a new stretch need not look for one where there is none.
fn stretch_to(map: &[u8], known: Stretch, reserved: u64, address: u64, end: u64) -> Stretch
    requires { (end ≤ 2 ^ 32) × Open map.now known × Clear map.now 0 reserved }
    ensures { OpenTo map.now address end result }
{
    if known.from <= address && address <= known.until {
        return lengthen(map, known, end);
    }
    let new = Stretch {
        from: address,
        until: address,
        clear: reserved,
    };
    lengthen(map, new, end)
}

// ---- the walk

// What is answered for an accepted table with so many sections and data bytes.
fn accepted(map: &[u8], table: &[u8], order: ByteOrder, sections: usize, bytes: usize) -> Summary
    requires { form_of order table.now ≡ formed sections bytes }
    ensures { answer_of (Ok result) ≡ accepted order map.now table.now }
{
    let entry = entry_of(table, order);
    Summary {
        entry,
        entry_open: is_open(map, entry),
        sections,
        bytes,
    }
}

// Where a walk stands: the offset, and how many sections and data bytes it has passed.
#[derive(Clone, Copy, Debug, PartialEq, Eq)]
struct Walk {
    offset: usize,
    sections: usize,
    bytes: usize,
}

// Walks on over the sections that lie in a stretch, up to another section, the end or a fault. It does not look at the
// map: the search through the map stays out of this loop, which then runs in registers.
fn walk_on(table: &[u8], order: ByteOrder, walk: Walk, stretch: Stretch) -> Walk
    requires { Counted table.now walk }
    ensures { WalkedOn order table.now walk stretch result }
{
    let mut on = walk;
    loop {
        let Ok(Some(section)) = step_at(table, order, on.offset) else {
            return on;
        };
        let address = section.address as u64;
        if address < stretch.from || stretch.until < address + section.size as u64 {
            return on;
        }
        on.offset = section.next;
        on.sections += 1;
        on.bytes += section.size;
    }
}

// Judges a table by its form and by the map rule, from stretch to stretch. Where an address is not open, a fault of the
// form that stands after it goes first. Each turn passes the section that the walk stopped at, now that the stretch holds
// it.
pub fn judge_open(map: &[u8], table: &[u8], order: ByteOrder) -> Result<Summary, Refusal>
    ensures { answer_of result ≡ open_answer order map.now table.now }
{
    let reserved = reserved_from(map, 0);
    if TABLE_LIMIT < table.len() {
        return Err(Refusal::TableLong);
    }
    if table.len() < 4 {
        return Err(Refusal::TableCut { place: 0 });
    }
    let mut walk = Walk {
        offset: 4,
        sections: 0,
        bytes: 0,
    };
    let mut known = Stretch {
        from: 0,
        until: 0,
        clear: 0,
    };
    loop {
        walk = walk_on(table, order, walk, known);
        let Some(section) = step_at(table, order, walk.offset)? else {
            return Ok(accepted(map, table, order, walk.sections, walk.bytes));
        };
        let address = section.address as u64;
        let end = address + section.size as u64;
        known = stretch_to(map, known, reserved, address, end);
        if known.until < end {
            form_of(table, order)?;
            return Err(Refusal::NotOpen {
                place: walk.offset,
                address: known.until as u32,
            });
        }
        walk.offset = section.next;
        walk.sections += 1;
        walk.bytes += section.size;
    }
}
