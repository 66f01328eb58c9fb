// Runs `query::part`, and prints each part as a line.
#![tactic(auto)]

use query::part;
use std::io;
use std::io::Write;
use words::ByteOrder;

fn print_part<'a, W: Write>(
    output: &mut W,
    older: &'a [u8],
    newer: &'a [u8],
    order: ByteOrder,
    address: u32,
) -> io::Result<()> {
    let found = part(older, newer, order, address);
    output.write_all(found)?;
    output.write_all(b"\n")
}

// The older table has abc from 00800002 on, the newer Z at 00800004, and low is the older with the low byte first; their pads
// are dots. Last the newer of two tables is refused.
fn main(rt: HostRuntime) -> io::Result<()> {
    let mut output = rt.stdout();
    let older = b"\x00\x80\x00\x00\x00\x00\x00\x03\x00\x80\x00\x02abc.\x00\x00\x00\x00";
    let newer = b"\x00\x80\x00\x04\x00\x00\x00\x01\x00\x80\x00\x04Z...\x00\x00\x00\x00";
    let low = b"\x00\x00\x80\x00\x03\x00\x00\x00\x02\x00\x80\x00abc.\x00\x00\x00\x00";
    print_part(&mut output, older, newer, ByteOrder::HighFirst, 0x0080_0001)?;
    print_part(&mut output, older, newer, ByteOrder::HighFirst, 0x0080_0002)?;
    print_part(&mut output, older, newer, ByteOrder::HighFirst, 0x0080_0003)?;
    print_part(&mut output, older, newer, ByteOrder::HighFirst, 0x0080_0004)?;
    print_part(&mut output, older, newer, ByteOrder::HighFirst, 0x0080_0005)?;
    print_part(&mut output, low, low, ByteOrder::LowFirst, 0x0080_0004)?;
    print_part(&mut output, older, low, ByteOrder::HighFirst, 0x0080_0002)
}
