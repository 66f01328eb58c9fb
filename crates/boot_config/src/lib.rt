// The boot configuration table: entries that set and clear bits of lent registers.
#![tactic(auto)]

ghost use Rattle.std.specs.Prelude.{◌≡◌, ◌≤◌, ◌<◌, length, get_or, set};
ghost use Rattle.boot_config.specs.Registers.{most_registers, rising, Listed, IndexOf, masked, changed_bits};
ghost use Rattle.boot_config.specs.Config.{config_limit, entry_at, applied, Tells, answer_of, config_answer, config_values};

use words::{Refusal, TOP, word_at};

// How many bytes a configuration table has at most.
const CONFIG_LIMIT: usize = 49_152;

// How many bytes an entry has: three words.
const ENTRY_SIZE: usize = 12;

// How many registers are lent at most.
const MOST_REGISTERS: usize = 1_024;

// How many turns a search has: as many as halve 1,023 to none.
const SEARCH_TURNS: usize = 10;

// A change of the register at an index: the bits to set and the bits to clear.
#[derive(Clone, Copy, Debug, PartialEq, Eq)]
struct Change {
    register: usize,
    put: u32,
    clear: u32,
}

// What configuring comes to: the count of the table's entries, and of the bits that differ after the whole table.
#[derive(Clone, Copy, Debug, PartialEq, Eq)]
pub struct Configured {
    pub entries: usize,
    pub bits: u32,
}

// ---- registers

// Whether each address is below the next.
fn is_rising(addresses: &[u32]) -> bool
    ensures { result ≡ rising addresses.now }
{
    addresses.is_sorted_by(|a, b| a < b)
}

// 1 where the address is not below another, else 0: a number and no test, so that the search below has no branch.
fn reaches(address: u32, there: u32) -> usize
    ensures { (there ≤ address → result ≡ 1) × (address < there → result ≡ 0) }
{
    ((TOP + address as u64 - there as u64) / TOP) as usize
}

// The index of an address in a rising list, if it is there. The address can stand at low, or at one of the `more`
// places after it, which each turn halves. There are as many turns for every list, so that the loop's end does not
// depend on it.
fn find(addresses: &[u32], address: u32) -> Option<usize>
    requires { Listed addresses.now }
    ensures { IndexOf addresses.now address result }
{
    if addresses.is_empty() {
        return None;
    }
    let mut low = 0;
    let mut more = addresses.len() - 1;
    for _ in 0..SEARCH_TURNS {
        let half = (more + 1) / 2;
        low += half * reaches(address, addresses[low + half]);
        more /= 2;
    }
    if addresses[low] == address {
        Some(low)
    } else {
        None
    }
}

// A value with the clear bits removed and then the set bits put in.
#[tactic(auto, unfolding(crate::specs::Registers::masked))]
fn mask(old: u32, put: u32, clear: u32) -> u32
    ensures { result ≡ masked old put clear }
{
    (old & !clear) | put
}

impl Change {
    // Changes the register.
    fn apply(self, values: &mut [u32])
        requires { self.register < length values.old }
        ensures { values.new ≡ set values.old self.register (masked (get_or values.old self.register 0) self.put self.clear) }
    {
        values[self.register] = mask(values[self.register], self.put, self.clear);
    }
}

// The number of bits that differ, summed over all registers.
fn changed_bits(old: &[u32], new: &[u32]) -> u32
    requires { (length old.now ≤ most_registers) × (length new.now ≡ length old.now) }
    ensures { result ≡ changed_bits old.now new.now }
{
    old.iter().zip(new).map(|(a, b)| (a ^ b).count_ones()).sum()
}

// ---- the table

// What the entry at an offset asks for: a change, or none at the table's end.
fn entry_at(table: &[u8], addresses: &[u32], at: usize) -> Result<Option<Change>, Refusal>
    requires { (at ≤ length table.now) × Listed addresses.now }
    ensures { result ≡ entry_at table.now addresses.now at }
{
    if table.len() - at < ENTRY_SIZE {
        return Err(Refusal::ConfigCut { place: at });
    }
    let address = word_at(table, at);
    let put = word_at(table, at + 4);
    let clear = word_at(table, at + 8);
    if put == 0 && clear == 0 {
        if address != 0 {
            return Err(Refusal::Branch { place: at });
        }
        if at + ENTRY_SIZE < table.len() {
            return Err(Refusal::ConfigAfter {
                place: at + ENTRY_SIZE,
            });
        }
        return Ok(None);
    }
    let Some(register) = find(addresses, address) else {
        return Err(Refusal::NoRegister { place: at });
    };
    Ok(Some(Change {
        register,
        put,
        clear,
    }))
}

// Applies a table to values, up to its end or its first fault, and counts its entries.
fn apply_table(table: &[u8], addresses: &[u32], values: &mut [u32]) -> Result<usize, Refusal>
    requires { Listed addresses.now × (length values.old ≡ length addresses.now) }
    ensures value { Tells result (applied table.now addresses.now values.old) }
    ensures values_after { values.new ≡ (applied table.now addresses.now values.old).values }
{
    let mut at = 0;
    let mut entries = 0;
    while let Some(change) = entry_at(table, addresses, at)? {
        change.apply(values);
        entries += 1;
        at += ENTRY_SIZE;
    }
    Ok(entries)
}

// Applies a table to a copy of the values, and keeps the copy where there is no fault.
fn configure_copy(
    table: &[u8],
    addresses: &[u32],
    values: &mut [u32],
    copy: &mut [u32],
) -> Result<Configured, Refusal>
    requires listed { (length table.now ≤ config_limit) × Listed addresses.now }
    requires lengths { (length values.old ≡ length addresses.now) × (length copy.old ≡ length addresses.now) }
    ensures value { answer_of result ≡ config_answer table.now addresses.now values.old }
    ensures values_after { values.new ≡ config_values table.now addresses.now values.old }
{
    copy.copy_from_slice(values);
    let entries = apply_table(table, addresses, copy)?;
    let bits = changed_bits(values, copy);
    values.copy_from_slice(copy);
    Ok(Configured { entries, bits })
}

// Sets and clears bits of lent registers as a configuration table says.
#[tactic(auto, using(crate::proofs::AnswerLaws::unfit_lengths, crate::proofs::AnswerLaws::unfit_many, crate::proofs::AnswerLaws::unfit_order, crate::proofs::AnswerLaws::fit_all, crate::proofs::AnswerLaws::answer_unfit, crate::proofs::AnswerLaws::answer_long, crate::proofs::AnswerLaws::config_keeps))]
pub fn configure(table: &[u8], addresses: &[u32], values: &mut [u32]) -> Result<Configured, Refusal>
    ensures value { answer_of result ≡ config_answer table.now addresses.now values.old }
    ensures values_after { values.new ≡ config_values table.now addresses.now values.old }
{
    let n = values.len();
    if addresses.len() != n || MOST_REGISTERS < n || !is_rising(addresses) {
        return Err(Refusal::RegistersUnfit);
    }
    if CONFIG_LIMIT < table.len() {
        return Err(Refusal::ConfigLong);
    }
    let mut copy = [0u32; MOST_REGISTERS];
    configure_copy(table, addresses, values, &mut copy[..n])
}
