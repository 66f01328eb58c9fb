// The records of a map, and its first fault.
ghost use Rattle.std.specs.Prelude.{◌≡◌, ◌&&◌, ◌+◌, ◌^◌, ◌<◌};
ghost use Rattle.region_map.specs.Map.{
  count,
  marked,
  is_kind,
  permitted,
  reserved,
  known,
  zeroed,
  first_at,
  length_at,
  end_at,
  holds,
  shares,
  shares_any,
  sound_at,
  map_fault,
};
ghost use Rattle.region_map.specs.Search.{Within, kind_number};

use words::{Refusal, TOP, word_at};

// How many bytes a record has.
pub const RECORD_SIZE: usize = 12;

// How many bytes a map has at most: those of 64 records.
const MAP_LIMIT: usize = 768;

// The two bytes of the mark that a record begins with.
const MARK_FIRST: u8 = 0x52;

const MARK_SECOND: u8 = 0x47;

// The kinds of records. One that takes one write is permitted too.
#[derive(Clone, Copy, Debug, PartialEq, Eq)]
pub enum Kind {
    Permitted = 1,
    Reserved = 2,
    OneWrite = 3,
}

// ---- records

#[tactic(auto, unfolding(crate::specs::Map::marked))]
fn is_marked(map: &[u8], i: usize) -> bool
    requires { i < count map.now }
    ensures { result ≡ marked map.now i }
{
    map[RECORD_SIZE * i] == MARK_FIRST && map[RECORD_SIZE * i + 1] == MARK_SECOND
}

// Whether record i is of a kind.
pub fn is_kind(map: &[u8], i: usize, kind: Kind) -> bool
    requires { i < count map.now }
    ensures { result ≡ is_kind map.now (kind_number kind) i }
{
    map[RECORD_SIZE * i + 2] == kind as u8
}

#[tactic(auto, unfolding(crate::specs::Map::permitted))]
pub fn is_permitted(map: &[u8], i: usize) -> bool
    requires { i < count map.now }
    ensures { result ≡ permitted map.now i }
{
    is_kind(map, i, Kind::Permitted) || is_kind(map, i, Kind::OneWrite)
}

#[tactic(auto, unfolding(crate::specs::Map::reserved))]
fn is_reserved(map: &[u8], i: usize) -> bool
    requires { i < count map.now }
    ensures { result ≡ reserved map.now i }
{
    is_kind(map, i, Kind::Reserved)
}

// Whether the kind is permitted or reserved.
#[tactic(auto, unfolding(crate::specs::Map::known))]
fn is_known(map: &[u8], i: usize) -> bool
    requires { i < count map.now }
    ensures { result ≡ known map.now i }
{
    is_permitted(map, i) || is_reserved(map, i)
}

#[tactic(auto, unfolding(crate::specs::Map::zeroed))]
fn is_zeroed(map: &[u8], i: usize) -> bool
    requires { i < count map.now }
    ensures { result ≡ zeroed map.now i }
{
    map[RECORD_SIZE * i + 3] == 0
}

// The first address of record i.
pub fn first_at(map: &[u8], i: usize) -> u64
    requires { i < count map.now }
    ensures { (result ≡ first_at map.now i) × (result < 2 ^ 32) }
{
    word_at(map, RECORD_SIZE * i + 4) as u64
}

// How many addresses record i has.
pub fn length_at(map: &[u8], i: usize) -> u64
    requires { i < count map.now }
    ensures { (result ≡ length_at map.now i) × (result < 2 ^ 32) }
{
    word_at(map, RECORD_SIZE * i + 8) as u64
}

// The address after the last of record i.
pub fn end_at(map: &[u8], i: usize) -> u64
    requires { i < count map.now }
    ensures { result ≡ end_at map.now i }
{
    first_at(map, i) + length_at(map, i)
}

// Whether record i holds the address.
#[tactic(auto, unfolding(crate::specs::Map::holds))]
pub fn record_holds(map: &[u8], i: usize, address: u64) -> bool
    requires { i < count map.now }
    ensures { result ≡ holds map.now i address }
{
    first_at(map, i) <= address && address < end_at(map, i)
}

// ---- the first fault

// The addresses from low on and below high: those of the permitted records so far lie between the two.
#[derive(Clone, Copy, Debug, PartialEq, Eq)]
struct Span {
    low: u64,
    high: u64,
}

// Whether records i and j share an address. Both tests are made, since in a map in no order either comes out by chance.
#[tactic(auto, unfolding(crate::specs::Map::shares))]
fn records_share(map: &[u8], i: usize, j: usize) -> bool
    requires { (i < count map.now) × (j < count map.now) }
    ensures { result ≡ shares map.now i j }
{
    (first_at(map, i) < end_at(map, j)) & (first_at(map, j) < end_at(map, i))
}

// Whether record j is permitted and shares an address with record i.
fn clashes(map: &[u8], i: usize, j: usize) -> bool
    requires { (i < count map.now) × (j < count map.now) }
    ensures { result ≡ (permitted map.now j && shares map.now i j) }
{
    is_permitted(map, j) && records_share(map, i, j)
}

// Whether record i shares an address with an earlier permitted one. It shares none where it lies outside the span of
// all of them; else they are tried one by one.
#[tactic(auto, using(crate::proofs::FaultLaws::shares_below, crate::proofs::FaultLaws::shares_above), unfolding(crate::specs::Map::shares_any))]
fn shares_earlier(map: &[u8], i: usize, span: Span) -> bool
    requires { (i < count map.now) × Within map.now i span.low span.high }
    ensures { result ≡ shares_any map.now i i }
{
    if span.high <= first_at(map, i) || end_at(map, i) <= span.low {
        return false;
    }
    for j in (0..i).rev() {
        if clashes(map, i, j) {
            return true;
        }
    }
    false
}

// Whether record i breaks no rule.
#[tactic(auto, unfolding(crate::specs::Map::sound_at))]
fn is_sound(map: &[u8], i: usize, span: Span) -> bool
    requires { (i < count map.now) × Within map.now i span.low span.high }
    ensures { result ≡ sound_at map.now i }
{
    is_marked(map, i)
        && is_known(map, i)
        && is_zeroed(map, i)
        && 1 <= length_at(map, i)
        && end_at(map, i) <= TOP
        && !(is_permitted(map, i) && shares_earlier(map, i, span))
}

// The span with record i, if that is permitted.
fn span_with(map: &[u8], i: usize, span: Span) -> Span
    requires { (i < count map.now) × Within map.now i span.low span.high }
    ensures { Within map.now (i + 1) result.low result.high }
{
    if !is_permitted(map, i) {
        return span;
    }
    Span {
        low: span.low.min(first_at(map, i)),
        high: span.high.max(end_at(map, i)),
    }
}

// The first fault of a map: its length, or its first record that breaks a rule.
#[tactic(auto, using(crate::proofs::FaultLaws::fault_no), unfolding(crate::specs::Map::map_fault, crate::specs::Map::fault_from))]
pub fn first_fault(map: &[u8]) -> Option<Refusal>
    ensures { result ≡ map_fault map.now }
{
    if map.len() % RECORD_SIZE != 0 || MAP_LIMIT < map.len() {
        return Some(Refusal::MapLength);
    }
    let mut span = Span { low: TOP, high: 0 };
    for i in 0..map.len() / RECORD_SIZE {
        if !is_sound(map, i, span) {
            return Some(Refusal::MapRecord { place: i });
        }
        span = span_with(map, i, span);
    }
    None
}
