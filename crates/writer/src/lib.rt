// Writing a boot table from a list of sections into a lent output.
#![tactic(auto)]

ghost use Rattle.std.specs.Prelude.{◌≡◌, ◌+◌, ◌^◌, ◌≤◌, ◌<◌, length};
ghost use Rattle.words.specs.Run.{over};
ghost use Rattle.words.specs.Word.{pad_count};
ghost use Rattle.boot_table.specs.Table.{next_of, chunk, chunks};
ghost use Rattle.writer.specs.Write.{sect_of, sects_of, fault_of, Faultless, write_answer, write_output, answer_of};
ghost use Rattle.writer.specs.Judging.{longer, judge_one, judge_from, padded_data};

use boot_table::{TABLE_LIMIT, is_past_top};
use words::{ByteOrder, Refusal, copy, padded, put_four, put_header};

// A section of the list: its address, and where its data begins in the lent data and how many bytes it has.
#[repr(C)]
#[derive(Clone, Copy, Debug, PartialEq, Eq)]
pub struct Section {
    pub address: u32,
    pub start: u32,
    pub size: u32,
}

// How many bytes and sections the table has that the output holds.
#[derive(Clone, Copy, Debug, PartialEq, Eq)]
pub struct Written {
    pub length: usize,
    pub sections: usize,
}

// ---- judging the list

// Judges the section of a place in the list, where so many bytes of data are lent.
#[tactic(auto, unfolding(crate::specs::Judging::judge_one))]
fn judge_section(section: Section, place: usize, bytes: usize) -> Result<(), Refusal>
    ensures { result ≡ judge_one section place bytes }
{
    if section.size == 0 {
        return Err(Refusal::SizeZero { place });
    }
    if bytes < section.start as usize + section.size as usize {
        return Err(Refusal::PastData { place });
    }
    if is_past_top(section.address, section.size) {
        return Err(Refusal::PastTop { place });
    }
    Ok(())
}

// The length of a table with a section more. A length over the limit is not counted further, so that no sum is too large.
#[tactic(auto, using(words::proofs::WordLaws::pad_lt), unfolding(crate::specs::Judging::longer, boot_table::specs::Table::next_of))]
fn longer(bytes: usize, size: u32) -> usize
    ensures { result ≡ longer bytes size }
{
    if TABLE_LIMIT < bytes {
        return bytes;
    }
    bytes + 8 + padded(size)
}

// Judges the sections of a list over so many bytes of data; answers the length of their table.
#[tactic(auto, using(crate::proofs::JudgeLaws::judge_turns, crate::proofs::JudgeLaws::judge_stops, crate::proofs::JudgeLaws::judge_ends))]
fn judge_sections(sections: &[Section], bytes: usize) -> Result<usize, Refusal>
    ensures { result ≡ judge_from sections.now 0 bytes 8 }
{
    let mut length = 8;
    for (place, section) in sections.iter().enumerate() {
        judge_section(*section, place, bytes)?;
        length = longer(length, section.size);
    }
    Ok(length)
}

// ---- writing the table

// Writes data of one to four bytes, with zero pads, into a word of the output.
#[tactic(auto, unfolding(crate::specs::Judging::padded_data, words::specs::Word::pad_count))]
fn put_short(body: &[u8], output: &mut [u8], at: usize)
    requires { (1 ≤ length body.now) × (length body.now ≤ 4) × (at + 4 ≤ length output.old) }
    ensures { output.new ≡ over output.old at (padded_data body.now) }
{
    match *body {
        [a, b, c, d] => put_four([a, b, c, d], output, at),
        [a, b, c] => put_four([a, b, c, 0], output, at),
        [a, b] => put_four([a, b, 0, 0], output, at),
        _ => put_four([body[0], 0, 0, 0], output, at),
    }
}

// Writes a section's data, with zero pads, into the output from an offset on; answers the offset after the pads.
#[tactic(auto, unfolding(words::specs::Word::pad_count))]
fn put_data(body: &[u8], output: &mut [u8], at: usize) -> usize
    requires { (1 ≤ length body.now) × (length body.now < 2 ^ 32) × (at + (length body.now + pad_count (length body.now)) ≤ length output.old) }
    ensures { (result ≡ at + (length body.now + pad_count (length body.now))) × (output.new ≡ over output.old at (padded_data body.now)) }
{
    let next = at + padded(body.len() as u32);
    if body.len() <= 4 {
        put_short(body, output, at);
        return next;
    }
    // The last word is cleared before the data is copied: what the data leaves of it are the pads.
    put_four([0; 4], output, next - 4);
    copy(body, &mut output[at..]);
    next
}

// Writes a section into the output from an offset on; answers the offset after it.
#[tactic(auto, using(crate::proofs::FaultLaws::faultless_section), unfolding(boot_table::specs::Table::next_of))]
fn put_section(
    section: Section,
    data: &[u8],
    order: ByteOrder,
    output: &mut [u8],
    at: usize,
) -> usize
    requires { (fault_of section (length «data».now) ≡ 0) × (next_of at section.size ≤ length output.old) }
    ensures { (result ≡ next_of at section.size) × (output.new ≡ over output.old at (chunk order (sect_of «data».now section))) }
{
    put_header(section.size, order, output, at);
    put_header(section.address, order, output, at + 4);
    let start = section.start as usize;
    let body = &data[start..start + section.size as usize];
    put_data(body, output, at + 8)
}

// Writes the sections of a list into the output, behind the entry word; answers the offset after them.
fn put_sections(sections: &[Section], data: &[u8], order: ByteOrder, output: &mut [u8]) -> usize
    requires { Faultless (length «data».now) sections.now × (4 + length (chunks order (sects_of sections.now «data».now)) ≤ length output.old) }
    ensures { (result ≡ 4 + length (chunks order (sects_of sections.now «data».now))) × (output.new ≡ over output.old 4 (chunks order (sects_of sections.now «data».now))) }
{
    let mut at: usize = 4;
    for section in sections {
        at = put_section(*section, data, order, output, at);
    }
    at
}

// Writes the table of an entry and a list of sections into the output, in a byte order: entry word, sections in the order of the list, zero word.
pub fn write(
    entry: u32,
    sections: &[Section],
    data: &[u8],
    order: ByteOrder,
    output: &mut [u8],
) -> Result<Written, Refusal>
    ensures value { answer_of result ≡ write_answer order entry sections.now «data».now (length output.old) }
    ensures output_after { output.new ≡ write_output order entry sections.now «data».now output.old }
{
    let length = judge_sections(sections, data.len())?;
    if TABLE_LIMIT < length {
        return Err(Refusal::ResultLong);
    }
    if output.len() < length {
        return Err(Refusal::OutputShort);
    }
    put_header(entry, order, output, 0);
    let end = put_sections(sections, data, order, output);
    put_header(0, order, output, end);
    Ok(Written {
        length,
        sections: sections.len(),
    })
}
