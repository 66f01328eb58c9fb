// The region map: its records and their first fault, the addresses that it opens and those that take one write, and their
// places in memory.
// The map is read where it stands, and every loop goes by records.
#![tactic(auto)]

ghost use Rattle.std.specs.Prelude.{◌≡◌};
ghost use Rattle.region_map.specs.Map.{map_answer, answer_of};

use places::memory_size;
use records::first_fault;
use words::Refusal;

mod addresses;
mod places;
mod records;

pub use addresses::{is_open, once_from, permitted_until, reserved_from};
pub use places::{Region, region_of};

// Judges a map: the memory that a caller must lend, or the refusal for its first fault.
#[tactic(auto, using(crate::proofs::FaultLaws::sound_length), unfolding(crate::specs::Map::map_answer, crate::specs::Map::fault_answer))]
pub fn judge_map(map: &[u8]) -> Result<usize, Refusal>
    ensures { answer_of result ≡ map_answer map.now }
{
    match first_fault(map) {
        Some(refusal) => Err(refusal),
        None => Ok(memory_size(map)),
    }
}
