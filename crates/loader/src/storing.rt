// Storing the sections of an accepted table, run by run, with the region of the last run remembered.
ghost use Rattle.std.specs.Prelude.{◌≡◌, true, ◌+◌, ◌-◌, ◌≤◌, ◌<◌, ◌^◌, length, take};
ghost use Rattle.std.proofs.Math.Option.{none};
ghost use Rattle.words.specs.Run.{over};
ghost use Rattle.region_map.specs.Map.{SoundMap, memory_size, is_open, closed_from};
ghost use Rattle.region_map.specs.Search.{Places};
ghost use Rattle.boot_table.specs.Table.{reading};
ghost use Rattle.loader.specs.Store.{store_bytes, store_all};
ghost use Rattle.loader.specs.Load.{table_answer};

use boot_table::whole_step;
use region_map::{Region, region_of};
use words::{ByteOrder, copy};

// The region that holds an open address: the known one, or else the one that is looked for.
fn region_for(map: &[u8], known: Region, address: u64) -> Region
    requires { SoundMap map.now × (is_open map.now address ≡ true) × Places map.now known }
    ensures { Places map.now result × (result.first ≤ address) × (address < result.end) }
{
    if known.first <= address && address < known.end {
        return known;
    }
    region_of(map, address)
}

// Stores as much of some bytes as a region takes from an address on, and says how much.
fn store_run(memory: &mut [u8], region: Region, address: u64, body: &[u8]) -> usize
    requires inside { (region.first ≤ address) × (address < region.end) × (0 < length body.now) }
    requires room { region.place + (region.end - region.first) ≤ length memory.old }
    ensures count { (0 < result) × (result ≤ length body.now) × (result ≤ region.end - address) }
    ensures memory_after { memory.new ≡ over memory.old (region.place + (address - region.first)) (take result body.now) }
{
    let place = region.place + (address - region.first) as usize;
    let count = (region.end - address).min(body.len() as u64) as usize;
    copy(&body[..count], &mut memory[place..]);
    count
}

// Stores a section's data from its address on, run by run, and answers the region of the last.
fn store_section(map: &[u8], memory: &mut [u8], known: Region, address: u32, body: &[u8]) -> Region
    requires sound_map { SoundMap map.now × (length memory.old ≡ memory_size map.now) × Places map.now known }
    requires open_to_end { (address + length body.now ≤ 2 ^ 32) × (closed_from map.now (length body.now) address ≡ none) }
    ensures places { Places map.now result }
    ensures memory_after { memory.new ≡ store_bytes map.now memory.old address body.now }
{
    let mut region = known;
    let mut at = address as u64;
    let mut done = 0;
    while done < body.len() {
        region = region_for(map, region, at);
        let count = store_run(memory, region, at, &body[done..]);
        at += count as u64;
        done += count;
    }
    region
}

// Stores the sections of a table that was accepted, in table order.
pub fn store_sections(map: &[u8], table: &[u8], order: ByteOrder, memory: &mut [u8])
    requires sound_map { SoundMap map.now × (length memory.old ≡ memory_size map.now) }
    requires accepted { (table_answer order map.now table.now).number ≡ 0 }
    ensures { memory.new ≡ store_all map.now memory.old (reading order table.now).sections }
{
    let mut at: usize = 4;
    let mut region = Region {
        first: 0,
        end: 0,
        place: 0,
    };
    loop {
        let Some(section) = whole_step(table, order, at) else {
            return;
        };
        let end = section.start + section.size;
        region = store_section(
            map,
            memory,
            region,
            section.address,
            &table[section.start..end],
        );
        at = section.next;
    }
}
