// Open addresses: how far a permitted record holds them, and how far no reserved record does; and addresses that take one write.
ghost use Rattle.std.specs.Prelude.{◌≡◌, ◌&&◌, ◌-◌, ◌≤◌, ◌<◌};
ghost use Rattle.region_map.specs.Map.{count, is_kind, permitted, reserved, one_write, holds, is_open, holder};
ghost use Rattle.region_map.specs.Search.{kind_number, touching_before, touching_after, permitted_until, lowest_in, lowest_from};

use crate::records::{Kind, RECORD_SIZE, end_at, first_at, is_kind, is_permitted, record_holds};
use words::TOP;

// Whether record i is permitted and holds the address. Most records do not hold it, so that is asked first.
fn permits(map: &[u8], i: usize, address: u64) -> bool
    requires { i < count map.now }
    ensures { result ≡ (permitted map.now i && holds map.now i address) }
{
    record_holds(map, i, address) && is_permitted(map, i)
}

// The permitted record that holds an address.
#[tactic(auto, unfolding(crate::specs::Map::holder))]
pub fn find_holder(map: &[u8], address: u64) -> Option<usize>
    ensures { result ≡ holder map.now (count map.now) address }
{
    for i in (0..map.len() / RECORD_SIZE).rev() {
        if permits(map, i, address) {
            return Some(i);
        }
    }
    None
}

// How far the addresses from one on are permitted by the records before record i in the map, the nearest first, as long
// as the next one touches.
#[tactic(auto, unfolding(crate::specs::Search::touching_before))]
fn touching_before(map: &[u8], i: usize, address: u64) -> u64
    requires { i ≤ count map.now }
    ensures { result ≡ touching_before map.now i address }
{
    let mut until = address;
    for j in (0..i).rev() {
        if !permits(map, j, until) {
            return until;
        }
        until = end_at(map, j);
    }
    until
}

// The same by the records from record i on, in the map's order.
#[tactic(auto, using(crate::proofs::RecordLaws::after_yes), unfolding(crate::specs::Search::touching_after))]
fn touching_after(map: &[u8], i: usize, address: u64) -> u64
    requires { i ≤ count map.now }
    ensures { result ≡ touching_after map.now (count map.now - i) i address }
{
    let mut until = address;
    for j in i..map.len() / RECORD_SIZE {
        if !permits(map, j, until) {
            return until;
        }
        until = end_at(map, j);
    }
    until
}

// How far the addresses from one on are permitted: to the end of the record that holds it, and on through the records
// that stand beside it in the map, as long as they touch.
#[tactic(auto, using(crate::proofs::RecordLaws::holder_few), unfolding(crate::specs::Search::permitted_until))]
pub fn permitted_until(map: &[u8], address: u64) -> u64
    ensures { result ≡ permitted_until map.now address }
{
    match find_holder(map, address) {
        Some(i) => {
            let before = touching_before(map, i, end_at(map, i));
            touching_after(map, i + 1, before)
        }
        None => address,
    }
}

// The lowest address from one on in record i, if that is of a kind, or a bound that is lower.
#[tactic(auto, unfolding(crate::specs::Search::lowest_in))]
fn lowest_in(map: &[u8], kind: Kind, i: usize, address: u64, bound: u64) -> u64
    requires { i < count map.now }
    ensures { result ≡ lowest_in (is_kind map.now (kind_number kind)) map.now i address bound }
{
    if !is_kind(map, i, kind) {
        return bound;
    }
    let lowest = address.max(first_at(map, i));
    if end_at(map, i) <= lowest {
        return bound;
    }
    bound.min(lowest)
}

// The lowest address from one on in a record of a kind, or 2^32.
#[tactic(auto, unfolding(crate::specs::Search::lowest_from))]
fn lowest_from(map: &[u8], kind: Kind, address: u64) -> u64
    ensures { result ≡ lowest_from (is_kind map.now (kind_number kind)) map.now (count map.now) address }
{
    let mut bound = TOP;
    for i in 0..map.len() / RECORD_SIZE {
        bound = lowest_in(map, kind, i, address, bound);
    }
    bound
}

// The lowest address from one on in a reserved record, or 2^32.
#[tactic(auto, unfolding(crate::specs::Map::reserved))]
pub fn reserved_from(map: &[u8], address: u64) -> u64
    ensures { result ≡ lowest_from (reserved map.now) map.now (count map.now) address }
{
    lowest_from(map, Kind::Reserved, address)
}

// The lowest address from one on that takes one write, or 2^32.
#[tactic(auto, unfolding(crate::specs::Map::one_write))]
pub fn once_from(map: &[u8], address: u64) -> u64
    ensures { result ≡ lowest_from (one_write map.now) map.now (count map.now) address }
{
    lowest_from(map, Kind::OneWrite, address)
}

// Whether an address is open.
#[tactic(auto, using(crate::proofs::RecordLaws::holder_any, crate::proofs::RecordLaws::holder_none, crate::proofs::OpenLaws::open_test, crate::proofs::OpenLaws::open_not))]
pub fn is_open(map: &[u8], address: u32) -> bool
    ensures { result ≡ is_open map.now address }
{
    let a = address as u64;
    match find_holder(map, a) {
        Some(_) => a < reserved_from(map, a),
        None => false,
    }
}
