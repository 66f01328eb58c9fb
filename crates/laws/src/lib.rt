// Functions that make the calls of demand 3 and request 11. What they ensure follows from the contracts of `join` and `load`, from demand 3 and from request 11.
#![tactic(auto)]

ghost use Rattle.std.specs.Prelude.{◌≡◌};
ghost use Rattle.boot_table.specs.Table.{Sect, reading};
ghost use Rattle.boot_table.specs.Form.{WellFormed};
ghost use Rattle.loader.specs.Load.{load_memory};
ghost use Rattle.joiner.specs.Join.{join_output, answer_of};
ghost use Rattle.laws.specs.Calls.{join_in, swap_of, turn_answers, turn_answers_of, three_answers, three_answers_of};
ghost use Rattle.laws.specs.Calls.{rearranged_answers, rearranged_answers_of, both_ways, both_ways_of};
ghost use Rattle.laws.specs.Demand3.{Joinable, Fitting, Joinable3, TwoSections, InTurn, Associative, Swapped};
ghost use Rattle.laws.specs.Rearranging.{RearrangedTable, LoadsAlike, JoinsAlike};

use joiner::{JoinRefusal, Joined, join};
use loader::{Summary, load};
use words::{ByteOrder, Refusal};

// The answers of a join, of loading it, and of loading its two tables in turn.
#[derive(Clone, Copy, Debug, PartialEq, Eq)]
pub struct TurnAnswers {
    pub joined: Result<Joined, JoinRefusal>,
    pub whole: Result<Summary, Refusal>,
    pub first: Result<Summary, Refusal>,
    pub second: Result<Summary, Refusal>,
}

// The answers of the four joins that join three tables both ways: A with B, that with C; B with C, A with that.
#[derive(Clone, Copy, Debug, PartialEq, Eq)]
pub struct ThreeAnswers {
    pub ab: Result<Joined, JoinRefusal>,
    pub left: Result<Joined, JoinRefusal>,
    pub bc: Result<Joined, JoinRefusal>,
    pub right: Result<Joined, JoinRefusal>,
}

// The answers of loading a table, and the table with its sections rearranged.
#[derive(Clone, Copy, Debug, PartialEq, Eq)]
pub struct RearrangedAnswers {
    pub original: Result<Summary, Refusal>,
    pub rearranged: Result<Summary, Refusal>,
}

// The answers of joining two tables both ways, and of loading each join.
#[derive(Clone, Copy, Debug, PartialEq, Eq)]
pub struct BothWays {
    pub ab: Result<Joined, JoinRefusal>,
    pub ba: Result<Joined, JoinRefusal>,
    pub ab_loaded: Result<Summary, Refusal>,
    pub ba_loaded: Result<Summary, Refusal>,
}

// How many bytes of an output are the join: none where it is refused.
fn reported(joined: Result<Joined, JoinRefusal>) -> usize
    ensures { result ≡ (answer_of joined).length }
{
    joined.map_or(0, |join| join.length)
}

// Joins two tables and loads the join into one memory, and loads the two in turn into another.
#[tactic(auto, using(crate::proofs::CallLaws::part_length))]
pub fn join_and_load(
    map: &[u8],
    first: &[u8],
    second: &[u8],
    order: ByteOrder,
    output: &mut [u8],
    join_memory: &mut [u8],
    turn_memory: &mut [u8],
) -> TurnAnswers
    ensures value { turn_answers_of result ≡ turn_answers order map.now first.now second.now output.old
        join_memory.old turn_memory.old }
    ensures output_after { output.new ≡ join_output order first.now second.now output.old }
    ensures join_memory_after { join_memory.new
        ≡ load_memory order map.now (join_in order first.now second.now output.old) join_memory.old }
    ensures turn_memory_after { turn_memory.new
        ≡ load_memory order map.now second.now (load_memory order map.now first.now turn_memory.old) }
    ensures in_turn { Joinable order first.now second.now output.old
        → Fitting map.now join_memory.old
        → join_memory.old ≡ turn_memory.old
        → InTurn order map.now first.now second.now output.old (turn_answers_of result)
        output.new join_memory.new turn_memory.new }
{
    let joined = join(first, second, order, output);
    let whole = load(map, &output[..reported(joined)], order, join_memory);
    let loaded_first = load(map, first, order, turn_memory);
    let loaded_second = load(map, second, order, turn_memory);
    TurnAnswers {
        joined,
        whole,
        first: loaded_first,
        second: loaded_second,
    }
}

// Joins three tables both ways: the first two and then the third, and the first with the join of the last two.
#[tactic(auto, using(crate::proofs::CallLaws::part_length))]
pub fn join_three(
    first: &[u8],
    second: &[u8],
    third: &[u8],
    order: ByteOrder,
    ab: &mut [u8],
    left: &mut [u8],
    bc: &mut [u8],
    right: &mut [u8],
) -> ThreeAnswers
    ensures value { three_answers_of result ≡ three_answers order first.now second.now third.now
        ab.old left.old bc.old right.old }
    ensures ab_after { ab.new ≡ join_output order first.now second.now ab.old }
    ensures left_after { left.new
        ≡ join_output order (join_in order first.now second.now ab.old) third.now left.old }
    ensures bc_after { bc.new ≡ join_output order second.now third.now bc.old }
    ensures right_after { right.new
        ≡ join_output order first.now (join_in order second.now third.now bc.old) right.old }
    ensures associative { Joinable3 order first.now second.now third.now
        ab.old left.old bc.old right.old
        → Associative order first.now second.now third.now
        ab.old left.old bc.old right.old (three_answers_of result)
        ab.new left.new bc.new right.new }
{
    let joined_ab = join(first, second, order, ab);
    let joined_left = join(&ab[..reported(joined_ab)], third, order, left);
    let joined_bc = join(second, third, order, bc);
    let joined_right = join(first, &bc[..reported(joined_bc)], order, right);
    ThreeAnswers {
        ab: joined_ab,
        left: joined_left,
        bc: joined_bc,
        right: joined_right,
    }
}

// Loads a table into one memory, and into another the table with its sections rearranged.
pub fn load_rearranged(
    map: &[u8],
    original: &[u8],
    rearranged: &[u8],
    order: ByteOrder,
    original_memory: &mut [u8],
    rearranged_memory: &mut [u8],
) -> RearrangedAnswers
    ensures value { rearranged_answers_of result ≡ rearranged_answers order map.now original.now rearranged.now
        original_memory.old rearranged_memory.old }
    ensures original_memory_after { original_memory.new ≡ load_memory order map.now original.now original_memory.old }
    ensures rearranged_memory_after { rearranged_memory.new ≡ load_memory order map.now rearranged.now rearranged_memory.old }
    ensures swapped { (x y : Sect) → TwoSections order original.now map.now original_memory.old x y
        → rearranged.now ≡ swap_of order original.now x y
        → original_memory.old ≡ rearranged_memory.old
        → Swapped x y (rearranged_answers_of result) original_memory.new rearranged_memory.new }
    ensures loads_alike { WellFormed order original.now
        → RearrangedTable order original.now rearranged.now
        → original_memory.old ≡ rearranged_memory.old
        → LoadsAlike (reading order original.now).sections (rearranged_answers_of result) original_memory.new rearranged_memory.new }
{
    let loaded_original = load(map, original, order, original_memory);
    let loaded_rearranged = load(map, rearranged, order, rearranged_memory);
    RearrangedAnswers {
        original: loaded_original,
        rearranged: loaded_rearranged,
    }
}

// Joins two tables, and joins them the other way round, and loads each join into a memory of its own.
#[tactic(auto, using(crate::proofs::CallLaws::part_length))]
pub fn join_both_ways(
    map: &[u8],
    first: &[u8],
    second: &[u8],
    order: ByteOrder,
    ab: &mut [u8],
    ba: &mut [u8],
    ab_memory: &mut [u8],
    ba_memory: &mut [u8],
) -> BothWays
    ensures value { both_ways_of result ≡ both_ways order map.now first.now second.now ab.old ba.old
        ab_memory.old ba_memory.old }
    ensures ab_after { ab.new ≡ join_output order first.now second.now ab.old }
    ensures ba_after { ba.new ≡ join_output order second.now first.now ba.old }
    ensures ab_memory_after { ab_memory.new
        ≡ load_memory order map.now (join_in order first.now second.now ab.old) ab_memory.old }
    ensures ba_memory_after { ba_memory.new
        ≡ load_memory order map.now (join_in order second.now first.now ba.old) ba_memory.old }
    ensures joins_alike { Joinable order first.now second.now ab.old
        → Joinable order second.now first.now ba.old
        → ab_memory.old ≡ ba_memory.old
        → JoinsAlike order map.now first.now second.now ab.old ba.old (both_ways_of result)
        ab.new ba.new ab_memory.new ba_memory.new }
{
    let joined_ab = join(first, second, order, ab);
    let joined_ba = join(second, first, order, ba);
    let loaded_ab = load(map, &ab[..reported(joined_ab)], order, ab_memory);
    let loaded_ba = load(map, &ba[..reported(joined_ba)], order, ba_memory);
    BothWays {
        ab: joined_ab,
        ba: joined_ba,
        ab_loaded: loaded_ab,
        ba_loaded: loaded_ba,
    }
}
