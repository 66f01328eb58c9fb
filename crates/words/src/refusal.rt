// Why a call refuses.
ghost use Rattle.std.specs.Prelude.{◌≡◌};
ghost use Rattle.words.specs.Refusal.{number_of, place_of, address_of};

// A refusal, with its place where it has one: an offset in a table, or the index of a map's record or of a section in a list.
#[derive(Clone, Copy, Debug, PartialEq, Eq)]
pub enum Refusal {
    // The map's length is no multiple of 12, or over 768.
    MapLength,
    // A map record breaks a rule.
    MapRecord { place: usize },
    // The memory's length differs from the permitted sum.
    MemoryLength,
    // The boot table is over its limit.
    TableLong,
    // The boot table is cut short.
    TableCut { place: usize },
    // Bytes stand after the zero word.
    BytesAfter { place: usize },
    // Address plus size is over 2^32.
    PastTop { place: usize },
    // An address is not open.
    NotOpen { place: usize, address: u32 },
    // The table that would be written is over the limit of a table.
    ResultLong,
    // The output is shorter than the result.
    OutputShort,
    // The register lists are unfit.
    RegistersUnfit,
    // The configuration table is over its limit.
    ConfigLong,
    // The configuration table ends before three zero words.
    ConfigCut { place: usize },
    // Bytes stand after the end entry.
    ConfigAfter { place: usize },
    // A register is not in the list.
    NoRegister { place: usize },
    // A branch is asked for.
    Branch { place: usize },
    // The strap value is over 8,191.
    StrapLong,
    // The strap value is reserved.
    StrapReserved,
    // A section of the list has its start plus size past the data.
    PastData { place: usize },
    // A section of the list has size zero.
    SizeZero { place: usize },
    // An address that takes one write is stored twice.
    StoredTwice { place: usize },
}

impl Refusal {
    // The number of a refusal. 6 is withdrawn and not used again.
    pub fn number(self) -> u32
        ensures { result ≡ number_of self }
    {
        match self {
            Refusal::MapLength => 1,
            Refusal::MapRecord { .. } => 2,
            Refusal::MemoryLength => 3,
            Refusal::TableLong => 4,
            Refusal::TableCut { .. } => 5,
            Refusal::BytesAfter { .. } => 7,
            Refusal::PastTop { .. } => 8,
            Refusal::NotOpen { .. } => 9,
            Refusal::ResultLong => 10,
            Refusal::OutputShort => 11,
            Refusal::RegistersUnfit => 12,
            Refusal::ConfigLong => 13,
            Refusal::ConfigCut { .. } => 14,
            Refusal::ConfigAfter { .. } => 15,
            Refusal::NoRegister { .. } => 16,
            Refusal::Branch { .. } => 17,
            Refusal::StrapLong => 18,
            Refusal::StrapReserved => 19,
            Refusal::PastData { .. } => 20,
            Refusal::SizeZero { .. } => 21,
            Refusal::StoredTwice { .. } => 29,
        }
    }

    // The place of a refusal: 0 where it has none.
    pub fn place(self) -> usize
        ensures { result ≡ place_of self }
    {
        match self {
            Refusal::MapRecord { place }
            | Refusal::TableCut { place }
            | Refusal::BytesAfter { place }
            | Refusal::PastTop { place }
            | Refusal::NotOpen { place, .. }
            | Refusal::ConfigCut { place }
            | Refusal::ConfigAfter { place }
            | Refusal::NoRegister { place }
            | Refusal::Branch { place }
            | Refusal::PastData { place }
            | Refusal::SizeZero { place }
            | Refusal::StoredTwice { place } => place,
            _ => 0,
        }
    }

    // The lowest address that is not open: 0 of another refusal.
    pub fn address(self) -> u32
        ensures { result ≡ address_of self }
    {
        match self {
            Refusal::NotOpen { address, .. } => address,
            _ => 0,
        }
    }
}
