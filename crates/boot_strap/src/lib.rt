// The boot strap value: what its 13 bits select.
#![tactic(auto)]

ghost use Rattle.std.specs.Prelude.{◌≡◌, [], ◌∷◌};
ghost use Rattle.boot_strap.specs.Strap.{strap_of, is_reserved, decode_as, numbers_as, decode_short, numbers_short};
ghost use Rattle.boot_strap.specs.Strap.{kind_of, fields_of, answer_numbers, nine, same_strap, same_answer, same_answer_of, label_answer, label_answer_of};

use words::Refusal;

// The largest value of 13 bits.
const STRAP_LIMIT: u32 = 8191;

// How reserved bits are taken: judged, or ignored.
#[derive(Clone, Copy, Debug, PartialEq, Eq)]
pub enum Manner {
    Strict,
    Lenient,
}

// What a strap value selects, with the fields of each kind.
#[derive(Clone, Copy, Debug, PartialEq, Eq)]
pub enum Strap {
    Sleep {
        sr: u32,
        wait: bool,
        clock: u32,
    },
    Emif16 {
        sr: u32,
        wait: bool,
        clock: u32,
    },
    Link {
        device: u32,
        number: u32,
        clock: u32,
    },
    Ethernet {
        device: u32,
        multiplier: u32,
        connection: u32,
        id: u32,
        clock: u32,
    },
    Pcie {
        bar: u32,
        sr: u32,
        clock: u32,
    },
    I2cMaster {
        number: u32,
    },
    I2cPassive {
        address: u32,
    },
    Spi {
        mode: u32,
        five_pin: bool,
        wide_address: bool,
        chip_select: u32,
        table: u32,
        sr: u32,
    },
}

// ---- decoding

// What a value selects, by its device.
#[tactic(auto, unfolding(crate::specs::Strap::strap_of))]
fn strap_of(value: u32) -> Strap
    ensures { result ≡ strap_of value }
{
    match value % 8 {
        0 => {
            let sr = value / 8 % 4;
            let wait = value / 128 % 2 == 1;
            let clock = value / 1024 % 8;
            if value / 32 % 4 == 0 {
                Strap::Sleep { sr, wait, clock }
            } else {
                Strap::Emif16 { sr, wait, clock }
            }
        }
        1 | 7 => Strap::Link {
            device: value % 8,
            number: value / 8 % 128,
            clock: value / 1024 % 8,
        },
        2 | 3 => Strap::Ethernet {
            device: value % 8,
            multiplier: value / 256 % 4,
            connection: value / 64 % 4,
            id: value / 8 % 8,
            clock: value / 1024 % 8,
        },
        4 => Strap::Pcie {
            bar: value / 32 % 16,
            sr: value / 8 % 4,
            clock: value / 1024 % 8,
        },
        5 => {
            if value / 256 % 2 == 1 {
                Strap::I2cPassive {
                    address: value / 32 % 8,
                }
            } else {
                Strap::I2cMaster {
                    number: value / 8 % 1024,
                }
            }
        }
        _ => Strap::Spi {
            mode: value / 2048 % 4,
            five_pin: value / 1024 % 2 == 1,
            wide_address: value / 512 % 2 == 1,
            chip_select: value / 128 % 4,
            table: value / 32 % 4,
            sr: value / 8 % 4,
        },
    }
}

// Whether a value is reserved: sub-modes 2 and 3 of device 0 always, other bits where they are judged.
#[tactic(auto, unfolding(crate::specs::Strap::is_reserved))]
fn is_reserved(value: u32, strict: bool) -> bool
    ensures { result ≡ is_reserved strict value }
{
    if value % 8 == 0 {
        return (2 <= value / 32 % 4) | (strict & (value / 256 % 4 != 0));
    }
    if value % 8 == 4 {
        return strict & (value / 512 % 2 == 1);
    }
    if value % 8 == 5 {
        let proper = (value / 512 % 2 == 1) & (value / 8 % 4 == 0);
        return strict & (value / 256 % 2 == 1) & !proper;
    }
    false
}

// Decodes a strap value in a manner.
#[tactic(auto, using(crate::proofs::StrapLaws::with_numbers), unfolding(crate::specs::Strap::decode_as))]
pub fn decode_as(value: u32, manner: Manner) -> Result<Strap, Refusal>
    ensures value { result ≡ decode_as manner value }
    ensures numbers { answer_numbers result ≡ numbers_as manner value }
{
    if STRAP_LIMIT < value {
        return Err(Refusal::StrapLong);
    }
    if is_reserved(value, manner == Manner::Strict) {
        return Err(Refusal::StrapReserved);
    }
    Ok(strap_of(value))
}

// Decodes a strap value where no manner is named: in the strict one.
#[tactic(auto, unfolding(crate::specs::Strap::decode_short, crate::specs::Strap::numbers_short))]
pub fn decode(value: u32) -> Result<Strap, Refusal>
    ensures value { result ≡ decode_short value }
    ensures numbers { answer_numbers result ≡ numbers_short value }
{
    decode_as(value, Manner::Strict)
}

// ---- the answer in numbers

// The kind's place in the table of kinds.
#[tactic(auto, unfolding(crate::specs::Strap::kind_of))]
fn kind_of(strap: Strap) -> u32
    ensures { result ≡ kind_of strap }
{
    match strap {
        Strap::Sleep { .. } => 0,
        Strap::Emif16 { .. } => 1,
        Strap::Link { .. } => 2,
        Strap::Ethernet { .. } => 3,
        Strap::Pcie { .. } => 4,
        Strap::I2cMaster { .. } => 5,
        Strap::I2cPassive { .. } => 6,
        Strap::Spi { .. } => 7,
    }
}

// A kind and six fields, as nine numbers.
fn row(kind: u32, a: u32, b: u32, c: u32, d: u32, e: u32, f: u32) -> [u64; 9]
    ensures { result ≡ 0 ∷ 0 ∷ kind ∷ a ∷ b ∷ c ∷ d ∷ e ∷ f ∷ [] }
{
    [
        0,
        0,
        kind as u64,
        a as u64,
        b as u64,
        c as u64,
        d as u64,
        e as u64,
        f as u64,
    ]
}

// A strap in nine numbers.
#[tactic(auto, unfolding(crate::specs::Strap::kind_of, crate::specs::Strap::fields_of, crate::specs::Strap::nine))]
fn strap_numbers(strap: Strap) -> [u64; 9]
    ensures { result ≡ nine (0 ∷ 0 ∷ kind_of strap ∷ fields_of strap) }
{
    let kind = kind_of(strap);
    match strap {
        Strap::Sleep { sr, wait, clock } => row(kind, sr, wait as u32, clock, 0, 0, 0),
        Strap::Emif16 { sr, wait, clock } => row(kind, sr, wait as u32, clock, 0, 0, 0),
        Strap::Link {
            device,
            number,
            clock,
        } => row(kind, device, number, clock, 0, 0, 0),
        Strap::Ethernet {
            device,
            multiplier,
            connection,
            id,
            clock,
        } => row(kind, device, multiplier, connection, id, clock, 0),
        Strap::Pcie { bar, sr, clock } => row(kind, bar, sr, clock, 0, 0, 0),
        Strap::I2cMaster { number } => row(kind, number, 0, 0, 0, 0, 0),
        Strap::I2cPassive { address } => row(kind, address, 0, 0, 0, 0, 0),
        Strap::Spi {
            mode,
            five_pin,
            wide_address,
            chip_select,
            table,
            sr,
        } => row(
            kind,
            mode,
            five_pin as u32,
            wide_address as u32,
            chip_select,
            table,
            sr,
        ),
    }
}

// A refusal of any number and place in nine numbers.
#[tactic(auto, unfolding(crate::specs::Strap::nine))]
pub fn refused_numbers(number: u32, place: usize) -> [u64; 9]
    ensures { result ≡ nine (number ∷ place ∷ []) }
{
    [number as u64, place as u64, 0, 0, 0, 0, 0, 0, 0]
}

// An answer in nine numbers: number, place, kind and fields, zero after.
#[tactic(auto, using(crate::proofs::StrapLaws::nine_refused), unfolding(crate::specs::Strap::answer_numbers, crate::specs::Strap::nine))]
pub fn numbers(answer: Result<Strap, Refusal>) -> [u64; 9]
    ensures { result ≡ nine (answer_numbers answer) }
{
    match answer {
        Ok(strap) => strap_numbers(strap),
        Err(refusal) => {
            let mut told = refused_numbers(refusal.number(), refusal.place());
            told[2] = refusal.address() as u64;
            told
        }
    }
}

// ---- the comparison and the board label, in the lenient manner

// Whether two straps have one kind and equal fields.
fn same_strap(first: Strap, second: Strap) -> bool
    ensures { result ≡ same_strap first second }
{
    match first {
        Strap::Sleep { sr, wait, clock } => {
            let Strap::Sleep {
                sr: s,
                wait: w,
                clock: c,
            } = second
            else {
                return false;
            };
            (sr == s) & (wait == w) & (clock == c)
        }
        Strap::Emif16 { sr, wait, clock } => {
            let Strap::Emif16 {
                sr: s,
                wait: w,
                clock: c,
            } = second
            else {
                return false;
            };
            (sr == s) & (wait == w) & (clock == c)
        }
        Strap::Link {
            device,
            number,
            clock,
        } => {
            let Strap::Link {
                device: d,
                number: n,
                clock: c,
            } = second
            else {
                return false;
            };
            (device == d) & (number == n) & (clock == c)
        }
        Strap::Ethernet {
            device,
            multiplier,
            connection,
            id,
            clock,
        } => {
            let Strap::Ethernet {
                device: d,
                multiplier: m,
                connection: n,
                id: i,
                clock: c,
            } = second
            else {
                return false;
            };
            (device == d) & (multiplier == m) & (connection == n) & (id == i) & (clock == c)
        }
        Strap::Pcie { bar, sr, clock } => {
            let Strap::Pcie {
                bar: b,
                sr: s,
                clock: c,
            } = second
            else {
                return false;
            };
            (bar == b) & (sr == s) & (clock == c)
        }
        Strap::I2cMaster { number } => {
            let Strap::I2cMaster { number: n } = second else {
                return false;
            };
            number == n
        }
        Strap::I2cPassive { address } => {
            let Strap::I2cPassive { address: a } = second else {
                return false;
            };
            address == a
        }
        Strap::Spi {
            mode,
            five_pin,
            wide_address,
            chip_select,
            table,
            sr,
        } => {
            let Strap::Spi {
                mode: m,
                five_pin: f,
                wide_address: w,
                chip_select: c,
                table: t,
                sr: s,
            } = second
            else {
                return false;
            };
            (mode == m)
                & (five_pin == f)
                & (wide_address == w)
                & (chip_select == c)
                & (table == t)
                & (sr == s)
        }
    }
}

// Whether two strap values, decoded in the lenient manner, have one kind and equal fields. The first value's refusal comes before the second's.
#[tactic(auto, unfolding(crate::specs::Strap::same_answer, crate::specs::Strap::same_of))]
pub fn same(first: u32, second: u32) -> Result<bool, Refusal>
    ensures { same_answer_of result ≡ same_answer first second }
{
    Ok(same_strap(
        decode_as(first, Manner::Lenient)?,
        decode_as(second, Manner::Lenient)?,
    ))
}

// The board label's number of a value, decoded in the lenient manner: the kind's place in the table of kinds.
#[tactic(auto, unfolding(crate::specs::Strap::label_answer, crate::specs::Strap::label_of))]
pub fn label(value: u32) -> Result<u32, Refusal>
    ensures { label_answer_of result ≡ label_answer value }
{
    Ok(kind_of(decode_as(value, Manner::Lenient)?))
}
