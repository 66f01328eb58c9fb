// The C interface: each call writes its answer as numbers into an array that the caller lends.
#![tactic(auto)]

ghost use Rattle.std.specs.Prelude.{◌≡◌, ◌-◌, ◌≤◌, ◌∷◌, length, replicate};
ghost use Rattle.words.specs.Refusal.{number_of, place_of};
ghost use Rattle.region_map.specs.Map.{map_answer};
ghost use Rattle.region_map.specs.Map.{answer_of as map_answer_of};
ghost use Rattle.loader.specs.Load.{judge_answer, load_answer, load_memory};
ghost use Rattle.loader.specs.Load.{answer_of as load_answer_of};
ghost use Rattle.joiner.specs.Join.{join_answer, join_output};
ghost use Rattle.joiner.specs.Join.{answer_of as join_answer_of};
ghost use Rattle.writer.specs.Write.{write_answer, write_output};
ghost use Rattle.writer.specs.Write.{answer_of as write_answer_of};
ghost use Rattle.query.specs.Find.{find_answer};
ghost use Rattle.query.specs.Find.{answer_of as find_answer_of};
ghost use Rattle.rescue.specs.Rescue.{rescue_answer, rescue_output};
ghost use Rattle.rescue.specs.Rescue.{answer_of as rescue_answer_of};
ghost use Rattle.boot_config.specs.Config.{config_answer, config_values};
ghost use Rattle.boot_config.specs.Config.{answer_of as config_answer_of};
ghost use Rattle.boot_strap.specs.Strap.{numbers_as, numbers_short, nine, same_answer, same_answer_of, label_answer, label_answer_of};
ghost use Rattle.tuneharbor.specs.Numbers.{map_numbers, load_numbers, join_numbers, write_numbers, find_numbers, rescue_numbers, config_numbers};
ghost use Rattle.tuneharbor.specs.Numbers.{order_of, manner_of, same_numbers, label_numbers};

use boot_config::{Configured, configure};
use boot_strap::Manner;
use joiner::{JoinRefusal, Joined, join};
use loader::{Summary, judge, load};
use query::{FindRefusal, Found, Which, find};
use region_map::judge_map;
use rescue::{Rescued, rescue};
use words::{ByteOrder, Refusal};
use writer::{Section, Written, write};

// ---- answers as numbers

// A refusal as numbers: its number, its place, what else it tells, and zeros.
fn refused<const N: usize>(refusal: Refusal, third: u64) -> [u64; N]
    requires { 3 ≤ N }
    ensures { result ≡ number_of refusal ∷ place_of refusal ∷ third ∷ replicate (N - 3) 0 }
{
    let mut answer = [0; N];
    answer[0] = refusal.number() as u64;
    answer[1] = refusal.place() as u64;
    answer[2] = third;
    answer
}

#[tactic(auto, unfolding(crate::specs::Numbers::map_numbers))]
fn map_numbers(answer: Result<usize, Refusal>) -> [u64; 3]
    ensures { result ≡ map_numbers (map_answer_of answer) }
{
    match answer {
        Ok(bytes) => [0, 0, bytes as u64],
        Err(refusal) => refused(refusal, 0),
    }
}

#[tactic(auto, unfolding(crate::specs::Numbers::load_numbers))]
fn load_numbers(answer: Result<Summary, Refusal>) -> [u64; 7]
    ensures { result ≡ load_numbers (load_answer_of answer) }
{
    match answer {
        Ok(summary) => [
            0,
            0,
            0,
            summary.entry as u64,
            summary.entry_open as u64,
            summary.sections as u64,
            summary.bytes as u64,
        ],
        Err(refusal) => refused(refusal, refusal.address() as u64),
    }
}

#[tactic(auto, unfolding(crate::specs::Numbers::join_numbers))]
fn join_numbers(answer: Result<Joined, JoinRefusal>) -> [u64; 5]
    ensures { result ≡ join_numbers (join_answer_of answer) }
{
    match answer {
        Ok(joined) => [0, 0, 0, joined.length as u64, joined.sections as u64],
        Err(JoinRefusal::First(refusal)) => refused(refusal, 1),
        Err(JoinRefusal::Second(refusal)) => refused(refusal, 2),
        Err(JoinRefusal::Join(refusal)) => refused(refusal, 0),
    }
}

#[tactic(auto, unfolding(crate::specs::Numbers::write_numbers))]
fn write_numbers(answer: Result<Written, Refusal>) -> [u64; 4]
    ensures { result ≡ write_numbers (write_answer_of answer) }
{
    match answer {
        Ok(written) => [0, 0, written.length as u64, written.sections as u64],
        Err(refusal) => refused(refusal, 0),
    }
}

#[tactic(auto, unfolding(crate::specs::Numbers::find_numbers))]
fn find_numbers(answer: Result<Found, FindRefusal>) -> [u64; 6]
    ensures { result ≡ find_numbers (find_answer_of answer) }
{
    match answer {
        Ok(found) => match found.part {
            Some(part) => {
                let table = match part.table {
                    Which::Older => 1,
                    Which::Newer => 2,
                };
                [
                    0,
                    0,
                    table,
                    part.offset as u64,
                    part.length as u64,
                    found.read as u64,
                ]
            }
            None => [0, 0, 0, 0, 0, found.read as u64],
        },
        Err(FindRefusal::Older(refusal)) => refused(refusal, 1),
        Err(FindRefusal::Newer(refusal)) => refused(refusal, 2),
    }
}

#[tactic(auto, unfolding(crate::specs::Numbers::rescue_numbers))]
fn rescue_numbers(answer: Result<Rescued, Refusal>) -> [u64; 6]
    ensures { result ≡ rescue_numbers (rescue_answer_of answer) }
{
    match answer {
        Ok(rescued) => [
            0,
            0,
            rescued.length as u64,
            rescued.sections as u64,
            rescued.unused as u64,
            rescued.added as u64,
        ],
        Err(refusal) => refused(refusal, 0),
    }
}

#[tactic(auto, unfolding(crate::specs::Numbers::config_numbers))]
fn config_numbers(answer: Result<Configured, Refusal>) -> [u64; 4]
    ensures { result ≡ config_numbers (config_answer_of answer) }
{
    match answer {
        Ok(configured) => [0, 0, configured.entries as u64, configured.bits as u64],
        Err(refusal) => refused(refusal, 0),
    }
}

#[tactic(auto, unfolding(crate::specs::Numbers::same_numbers))]
fn same_numbers(answer: Result<bool, Refusal>) -> [u64; 3]
    ensures { result ≡ same_numbers (same_answer_of answer) }
{
    match answer {
        Ok(same) => [0, 0, same as u64],
        Err(refusal) => refused(refusal, 0),
    }
}

#[tactic(auto, unfolding(crate::specs::Numbers::label_numbers))]
fn label_numbers(answer: Result<u32, Refusal>) -> [u64; 3]
    ensures { result ≡ label_numbers (label_answer_of answer) }
{
    match answer {
        Ok(label) => [0, 0, label as u64],
        Err(refusal) => refused(refusal, 0),
    }
}

// ---- flags

// The byte order that a flag asks for.
fn order_of(low_first: bool) -> ByteOrder
    ensures { result ≡ order_of low_first }
{
    if low_first {
        ByteOrder::LowFirst
    } else {
        ByteOrder::HighFirst
    }
}

// The manner that a flag asks for.
fn manner_of(strict: bool) -> Manner
    ensures { result ≡ manner_of strict }
{
    if strict {
        Manner::Strict
    } else {
        Manner::Lenient
    }
}

// ---- the calls

// Judges a map.
#[unsafe(no_mangle)]
pub extern "C" fn tuneharbor_map(map: &[u8], answer: &mut [u64; 3])
    ensures { answer.new ≡ map_numbers (map_answer map.now) }
{
    *answer = map_numbers(judge_map(map));
}

// Judges a map and a table.
#[unsafe(no_mangle)]
pub extern "C" fn tuneharbor_judge(map: &[u8], table: &[u8], low_first: bool, answer: &mut [u64; 7])
    ensures { answer.new ≡ load_numbers (judge_answer (order_of low_first) map.now table.now) }
{
    *answer = load_numbers(judge(map, table, order_of(low_first)));
}

// Loads a table into memory under a map.
#[unsafe(no_mangle)]
pub extern "C" fn tuneharbor_load(
    map: &[u8],
    table: &[u8],
    low_first: bool,
    memory: &mut [u8],
    answer: &mut [u64; 7],
)
    ensures answer_after { answer.new ≡ load_numbers (load_answer (order_of low_first) map.now table.now (length memory.old)) }
    ensures memory_after { memory.new ≡ load_memory (order_of low_first) map.now table.now memory.old }
{
    *answer = load_numbers(load(map, table, order_of(low_first), memory));
}

// Joins two tables into an output.
#[unsafe(no_mangle)]
pub extern "C" fn tuneharbor_join(
    first: &[u8],
    second: &[u8],
    low_first: bool,
    output: &mut [u8],
    answer: &mut [u64; 5],
)
    ensures answer_after { answer.new ≡ join_numbers (join_answer (order_of low_first) first.now second.now (length output.old)) }
    ensures output_after { output.new ≡ join_output (order_of low_first) first.now second.now output.old }
{
    *answer = join_numbers(join(first, second, order_of(low_first), output));
}

// Writes the table of an entry and a list of sections into an output.
#[unsafe(no_mangle)]
pub extern "C" fn tuneharbor_write(
    entry: u32,
    sections: &[Section],
    data: &[u8],
    low_first: bool,
    output: &mut [u8],
    answer: &mut [u64; 4],
)
    ensures answer_after { answer.new ≡ write_numbers (write_answer (order_of low_first) entry sections.now «data».now (length output.old)) }
    ensures output_after { output.new ≡ write_output (order_of low_first) entry sections.now «data».now output.old }
{
    *answer = write_numbers(write(entry, sections, data, order_of(low_first), output));
}

// Finds what stands at an address in two tables.
#[unsafe(no_mangle)]
pub extern "C" fn tuneharbor_find(
    older: &[u8],
    newer: &[u8],
    low_first: bool,
    address: u32,
    answer: &mut [u64; 6],
)
    ensures { answer.new ≡ find_numbers (find_answer (order_of low_first) older.now newer.now address) }
{
    *answer = find_numbers(find(older, newer, order_of(low_first), address));
}

// Rescues the whole sections of a table into an output.
#[unsafe(no_mangle)]
pub extern "C" fn tuneharbor_rescue(
    table: &[u8],
    low_first: bool,
    output: &mut [u8],
    answer: &mut [u64; 6],
)
    ensures answer_after { answer.new ≡ rescue_numbers (rescue_answer (order_of low_first) table.now (length output.old)) }
    ensures output_after { output.new ≡ rescue_output (order_of low_first) table.now output.old }
{
    *answer = rescue_numbers(rescue(table, order_of(low_first), output));
}

// Sets and clears bits of registers by a configuration table.
#[unsafe(no_mangle)]
pub extern "C" fn tuneharbor_configure(
    table: &[u8],
    addresses: &[u32],
    values: &mut [u32],
    answer: &mut [u64; 4],
)
    ensures answer_after { answer.new ≡ config_numbers (config_answer table.now addresses.now values.old) }
    ensures values_after { values.new ≡ config_values table.now addresses.now values.old }
{
    *answer = config_numbers(configure(table, addresses, values));
}

// Decodes a strap value, strictly or leniently.
#[unsafe(no_mangle)]
pub extern "C" fn tuneharbor_strap(value: u32, strict: bool, answer: &mut [u64; 9])
    ensures { answer.new ≡ nine (numbers_as (manner_of strict) value) }
{
    *answer = boot_strap::numbers(boot_strap::decode_as(value, manner_of(strict)));
}

// Decodes a strap value where no manner is named: in the strict one.
#[unsafe(no_mangle)]
pub extern "C" fn tuneharbor_strap_short(value: u32, answer: &mut [u64; 9])
    ensures { answer.new ≡ nine (numbers_short value) }
{
    *answer = boot_strap::numbers(boot_strap::decode(value));
}

// Whether two strap values, decoded in the lenient manner, have one kind and equal fields.
#[unsafe(no_mangle)]
pub extern "C" fn tuneharbor_strap_same(first: u32, second: u32, answer: &mut [u64; 3])
    ensures { answer.new ≡ same_numbers (same_answer first second) }
{
    *answer = same_numbers(boot_strap::same(first, second));
}

// The board label's number of a strap value, decoded in the lenient manner.
#[unsafe(no_mangle)]
pub extern "C" fn tuneharbor_strap_label(value: u32, answer: &mut [u64; 3])
    ensures { answer.new ≡ label_numbers (label_answer value) }
{
    *answer = label_numbers(boot_strap::label(value));
}
