// The text of a boot table, written into a lent buffer.
#![tactic(auto)]

ghost use Rattle.std.specs.Prelude.{◌≡◌, ◌+◌, ◌*◌, ◌≤◌, ◌<◌, length};
ghost use Rattle.words.specs.Run.{over};
ghost use Rattle.boot_table.specs.Table.{reading};
ghost use Rattle.boot_table.specs.Form.{WellFormed};
ghost use Rattle.listing.specs.Text.{digit_of, hex_text, decimal_text};
ghost use Rattle.listing.specs.Listing.{entry_line, section_line, end_line, refused_line, section_lines, list_length, list_output};

use boot_table::{entry_of, form_of, whole_step};
use words::{ByteOrder, copy};

const LIST_LIMIT: usize = 65_536;

// ---- text

// Writes bytes into a buffer from an offset on; answers the offset after them.
fn put(buffer: &mut [u8], at: usize, bytes: &[u8]) -> usize
    requires { at + length bytes.now ≤ length buffer.old }
    ensures value { result ≡ at + length bytes.now }
    ensures buffer_after { buffer.new ≡ over buffer.old at bytes.now }
{
    copy(bytes, &mut buffer[at..]);
    at + bytes.len()
}

// A digit below 16 as a character, in lower case.
fn digit(d: u32) -> u8
    requires { d < 16 }
    ensures { result ≡ digit_of d }
{
    if d < 10 {
        b'0' + d as u8
    } else {
        b'a' + (d - 10) as u8
    }
}

// Writes a word as eight hexadecimal digits.
fn put_hex(buffer: &mut [u8], at: usize, word: u32) -> usize
    requires { at + 8 ≤ length buffer.old }
    ensures value { result ≡ at + 8 }
    ensures buffer_after { buffer.new ≡ over buffer.old at (hex_text word) }
{
    let digits = [
        digit(word / 268_435_456 % 16),
        digit(word / 16_777_216 % 16),
        digit(word / 1_048_576 % 16),
        digit(word / 65_536 % 16),
        digit(word / 4_096 % 16),
        digit(word / 256 % 16),
        digit(word / 16 % 16),
        digit(word % 16),
    ];
    put(buffer, at, &digits)
}

// Writes a number in decimal, without leading zeros.
fn put_decimal(buffer: &mut [u8], at: usize, n: usize) -> usize
    requires { at + length (decimal_text n) ≤ length buffer.old }
    ensures value { result ≡ at + length (decimal_text n) }
    ensures buffer_after { buffer.new ≡ over buffer.old at (decimal_text n) }
{
    let last = [digit((n % 10) as u32)];
    if n < 10 {
        return put(buffer, at, &last);
    }
    let to = put_decimal(buffer, at, n / 10);
    put(buffer, to, &last)
}

// ---- lines

fn put_entry(buffer: &mut [u8], at: usize, entry: u32) -> usize
    requires { at + length (entry_line entry) ≤ length buffer.old }
    ensures value { result ≡ at + length (entry_line entry) }
    ensures buffer_after { buffer.new ≡ over buffer.old at (entry_line entry) }
{
    let a = put(buffer, at, b"entry ");
    let b = put_hex(buffer, a, entry);
    put(buffer, b, b"\n")
}

fn put_section(buffer: &mut [u8], at: usize, address: u32, size: usize) -> usize
    requires { at + length (section_line address size) ≤ length buffer.old }
    ensures value { result ≡ at + length (section_line address size) }
    ensures buffer_after { buffer.new ≡ over buffer.old at (section_line address size) }
{
    let a = put(buffer, at, b"section ");
    let b = put_hex(buffer, a, address);
    let c = put(buffer, b, b" ");
    let d = put_decimal(buffer, c, size);
    put(buffer, d, b"\n")
}

fn put_end(buffer: &mut [u8], at: usize, sections: usize, bytes: usize) -> usize
    requires { at + length (end_line sections bytes) ≤ length buffer.old }
    ensures value { result ≡ at + length (end_line sections bytes) }
    ensures buffer_after { buffer.new ≡ over buffer.old at (end_line sections bytes) }
{
    let a = put(buffer, at, b"end ");
    let b = put_decimal(buffer, a, sections);
    let c = put(buffer, b, b" ");
    let d = put_decimal(buffer, c, bytes);
    put(buffer, d, b"\n")
}

fn put_refused(buffer: &mut [u8], at: usize, number: usize, place: usize) -> usize
    requires { at + length (refused_line number place) ≤ length buffer.old }
    ensures value { result ≡ at + length (refused_line number place) }
    ensures buffer_after { buffer.new ≡ over buffer.old at (refused_line number place) }
{
    let a = put(buffer, at, b"refused ");
    let b = put_decimal(buffer, a, number);
    let c = put(buffer, b, b" at ");
    let d = put_decimal(buffer, c, place);
    put(buffer, d, b"\n")
}

// ---- the table

// Writes a line for each section of a well-formed table.
fn put_sections(table: &[u8], order: ByteOrder, buffer: &mut [u8], from: usize) -> usize
    requires well_formed { WellFormed order table.now }
    requires room { from + length (section_lines (reading order table.now).sections) ≤ length buffer.old }
    ensures value { result ≡ from + length (section_lines (reading order table.now).sections) }
    ensures buffer_after { buffer.new ≡ over buffer.old from (section_lines (reading order table.now).sections) }
{
    let mut at: usize = 4;
    let mut to = from;
    loop {
        let Some(section) = whole_step(table, order, at) else {
            return to;
        };
        to = put_section(buffer, to, section.address, section.size);
        at = section.next;
    }
}

// Writes the text of a table to the front of a buffer, and answers its length: 0, with nothing written, where the buffer is too short.
pub fn list(table: &[u8], order: ByteOrder, buffer: &mut [u8]) -> usize
    ensures value { result ≡ list_length order table.now (length buffer.old) }
    ensures buffer_after { buffer.new ≡ list_output order table.now buffer.old }
{
    if LIST_LIMIT < table.len() {
        if buffer.len() < 9 {
            return 0;
        }
        return put(buffer, 0, b"too long\n");
    }
    if buffer.len() < 32 + 2 * table.len() {
        return 0;
    }
    match form_of(table, order) {
        Err(refusal) => put_refused(buffer, 0, refusal.number() as usize, refusal.place()),
        Ok(counts) => {
            let a = put_entry(buffer, 0, entry_of(table, order));
            let b = put_sections(table, order, buffer, a);
            put_end(buffer, b, counts.sections, counts.bytes)
        }
    }
}
