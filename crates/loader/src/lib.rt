// Judging a boot table under a region map, and loading it into memory.
#![tactic(auto)]

ghost use Rattle.std.specs.Prelude.{◌≡◌, length};
ghost use Rattle.boot_table.specs.Form.{WellFormed};
ghost use Rattle.one_write.specs.Once.{first_repeat};
ghost use Rattle.loader.specs.Load.{judge_answer, load_answer, load_memory, answer_of};
ghost use Rattle.loader.specs.Judging.{once_result};

use judging::judge_open;
use one_write::first_repeat;
use region_map::judge_map;
use storing::store_sections;
use words::{ByteOrder, Refusal};

mod judging;
mod storing;

// What judging and loading answer for an accepted table: its entry, whether that is open, and how many sections and data bytes
// it has.
#[derive(Clone, Copy, Debug, PartialEq, Eq)]
pub struct Summary {
    pub entry: u32,
    pub entry_open: bool,
    pub sections: usize,
    pub bytes: usize,
}

// Judges that a table stores no address of kind 3 twice.
fn judge_once(map: &[u8], table: &[u8], order: ByteOrder) -> Result<(), Refusal>
    requires { WellFormed order table.now }
    ensures { result ≡ once_result (first_repeat order map.now table.now) }
{
    match first_repeat(map, table, order) {
        Some(place) => Err(Refusal::StoredTwice { place }),
        None => Ok(()),
    }
}

// Judges a map and a table, and stores nothing.
pub fn judge(map: &[u8], table: &[u8], order: ByteOrder) -> Result<Summary, Refusal>
    ensures { answer_of result ≡ judge_answer order map.now table.now }
{
    judge_map(map)?;
    let summary = judge_open(map, table, order)?;
    judge_once(map, table, order)?;
    Ok(summary)
}

// Loads a table into memory under a map. Nothing is stored before all of it is judged.
pub fn load(
    map: &[u8],
    table: &[u8],
    order: ByteOrder,
    memory: &mut [u8],
) -> Result<Summary, Refusal>
    ensures value { answer_of result ≡ load_answer order map.now table.now (length memory.old) }
    ensures memory_after { memory.new ≡ load_memory order map.now table.now memory.old }
{
    let size = judge_map(map)?;
    if memory.len() != size {
        return Err(Refusal::MemoryLength);
    }
    let summary = judge_open(map, table, order)?;
    judge_once(map, table, order)?;
    store_sections(map, table, order, memory);
    Ok(summary)
}
