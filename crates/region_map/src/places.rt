// Places in memory.
ghost use Rattle.std.specs.Prelude.{◌≡◌, ◌*◌, ◌^◌, ◌≤◌, length};
ghost use Rattle.region_map.specs.Map.{map_limit, count, size_before, memory_size};
ghost use Rattle.region_map.specs.Search.{region_of};

use crate::addresses::find_holder;
use crate::records::{RECORD_SIZE, end_at, first_at, is_permitted, length_at};

// The addresses of a permitted record, from its first up to its end, and the place in memory of the first.
#[derive(Clone, Copy, Debug, PartialEq, Eq)]
pub struct Region {
    pub first: u64,
    pub end: u64,
    pub place: usize,
}

// The permitted lengths of the first n records together.
#[tactic(auto, unfolding(crate::specs::Map::size_before))]
fn size_before(map: &[u8], n: usize) -> usize
    requires { (length map.now ≤ map_limit) × (n ≤ count map.now) }
    ensures { (result ≡ size_before map.now n) × (result ≤ n * 2 ^ 32) }
{
    let mut sum: usize = 0;
    for i in 0..n {
        if is_permitted(map, i) {
            sum += length_at(map, i) as usize;
        }
    }
    sum
}

// How many bytes of memory a map's permitted records take.
pub fn memory_size(map: &[u8]) -> usize
    requires { length map.now ≤ map_limit }
    ensures { result ≡ memory_size map.now }
{
    size_before(map, map.len() / RECORD_SIZE)
}

// The region of the permitted record that holds an address.
#[tactic(auto, using(crate::proofs::RecordLaws::holder_few), unfolding(crate::specs::Search::region_of))]
pub fn region_of(map: &[u8], address: u64) -> Region
    requires { length map.now ≤ map_limit }
    ensures { result ≡ region_of map.now address }
{
    match find_holder(map, address) {
        Some(i) => Region {
            first: first_at(map, i),
            end: end_at(map, i),
            place: size_before(map, i),
        },
        None => Region {
            first: 0,
            end: 0,
            place: 0,
        },
    }
}
