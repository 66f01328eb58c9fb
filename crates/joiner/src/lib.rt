// Joining two boot tables into a lent output.
#![tactic(auto)]

ghost use Rattle.std.specs.Prelude.{◌≡◌, ◌+◌, ◌≤◌, length};
ghost use Rattle.words.specs.Run.{over};
ghost use Rattle.boot_table.specs.Form.{WellFormed};
ghost use Rattle.joiner.specs.Join.{joined_length, section_bytes, joined_over, join_answer, join_output, answer_of};

use boot_table::{TABLE_LIMIT, entry_of, form_of, whole_step};
use words::{ByteOrder, Refusal, copy, put_header};

// A fault of the first table, of the second, or of the join itself.
#[derive(Clone, Copy, Debug, PartialEq, Eq)]
pub enum JoinRefusal {
    First(Refusal),
    Second(Refusal),
    Join(Refusal),
}

// How many bytes and sections the join has that the output holds.
#[derive(Clone, Copy, Debug, PartialEq, Eq)]
pub struct Joined {
    pub length: usize,
    pub sections: usize,
}

// Copies the sections of a well-formed table, as they stand, into the output from an offset on; answers the offset after them.
#[tactic(auto, using(crate::proofs::WriteLaws::turn_whole))]
fn copy_sections(table: &[u8], order: ByteOrder, output: &mut [u8], from: usize) -> usize
    requires well_formed { WellFormed order table.now }
    requires room { from + length table.now ≤ length output.old + 8 }
    ensures ends { result + 8 ≡ from + length table.now }
    ensures output_after { output.new ≡ over output.old from (section_bytes table.now) }
{
    let mut at: usize = 4;
    let mut to = from;
    loop {
        let Some(section) = whole_step(table, order, at) else {
            return to;
        };
        copy(&table[at..section.next], &mut output[to..]);
        to += section.next - at;
        at = section.next;
    }
}

// Writes the join of two well-formed tables to the front of an output that has room for it.
#[tactic(auto, using(boot_table::proofs::FormLaws::well_long), unfolding(crate::specs::Join::joined_length))]
fn write_join(first: &[u8], second: &[u8], order: ByteOrder, output: &mut [u8])
    requires well_formed { WellFormed order first.now × WellFormed order second.now }
    requires room { joined_length first.now second.now ≤ length output.old }
    ensures { output.new ≡ joined_over order first.now second.now output.old }
{
    put_header(entry_of(second, order), order, output, 0);
    let middle = copy_sections(first, order, output, 4);
    let end = copy_sections(second, order, output, middle);
    put_header(0, order, output, end);
}

// Joins two tables into the output, in their byte order: the second's entry, the first's sections, the second's sections, zero word.
#[tactic(auto, using(crate::proofs::AnswerLaws::first_refused, crate::proofs::AnswerLaws::second_refused, crate::proofs::AnswerLaws::join_long, crate::proofs::AnswerLaws::output_short, crate::proofs::AnswerLaws::output_kept), unfolding(crate::specs::Join::joined_length))]
pub fn join(
    first: &[u8],
    second: &[u8],
    order: ByteOrder,
    output: &mut [u8],
) -> Result<Joined, JoinRefusal>
    ensures value { answer_of result ≡ join_answer order first.now second.now (length output.old) }
    ensures output_after { output.new ≡ join_output order first.now second.now output.old }
{
    let a = form_of(first, order).map_err(JoinRefusal::First)?;
    let b = form_of(second, order).map_err(JoinRefusal::Second)?;
    let length = first.len() + second.len() - 8;
    if TABLE_LIMIT < length {
        return Err(JoinRefusal::Join(Refusal::ResultLong));
    }
    if output.len() < length {
        return Err(JoinRefusal::Join(Refusal::OutputShort));
    }
    let sections = a.sections + b.sections;
    write_join(first, second, order, output);
    Ok(Joined { length, sections })
}
