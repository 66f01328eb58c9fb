// Rescuing a cut boot table: its whole sections from the start are written into a lent output as a table.
#![tactic(auto)]

ghost use Rattle.std.specs.Prelude.{◌++◌, ◌≡◌, ◌+◌, ◌≤◌, ◌<◌, ◌^◌, length};
ghost use Rattle.words.specs.Header.{header_bytes};
ghost use Rattle.words.specs.Run.{over};
ghost use Rattle.rescue.specs.Rescue.{rescue_answer, answer_of, rescue_output};
ghost use Rattle.rescue.specs.WholeRun.{whole_run, used_to};

use boot_table::{TABLE_LIMIT, step_at};
use words::{ByteOrder, Refusal, copy, put_header};

// What rescuing answers where the output holds the rescued table: its length, how many sections were kept, how many bytes of
// the input were not used, and whether the zero word had to be added.
#[derive(Clone, Copy, Debug, PartialEq, Eq)]
pub struct Rescued {
    pub length: usize,
    pub sections: usize,
    pub unused: usize,
    pub added: bool,
}

// The whole sections from a table's start: how many, the offset behind them, and whether a zero word stands there.
#[derive(Clone, Copy, Debug, PartialEq, Eq)]
struct Run {
    sections: usize,
    end: usize,
    zero: bool,
}

// Walks over the whole sections from the start, up to a zero word or the first fault.
#[tactic(auto, using(crate::proofs::WholeRunLaws::run_starts, crate::proofs::WholeRunLaws::run_section, crate::proofs::WholeRunLaws::run_end, crate::proofs::WholeRunLaws::run_fault, boot_table::proofs::StepLaws::section_of), unfolding(crate::specs::Rescue::has_zero))]
fn whole_run(table: &[u8], order: ByteOrder) -> Run
    requires { 4 ≤ length table.now }
    ensures { result ≡ whole_run order table.now }
{
    let mut at: usize = 4;
    let mut sections: usize = 0;
    loop {
        match step_at(table, order, at) {
            Ok(Some(section)) => {
                sections += 1;
                at = section.next;
            }
            Ok(None) | Err(Refusal::BytesAfter { .. }) => {
                return Run {
                    sections,
                    end: at,
                    zero: true,
                };
            }
            Err(_) => {
                return Run {
                    sections,
                    end: at,
                    zero: false,
                };
            }
        }
    }
}

// How many bytes of the input are used: those before the end of its whole sections, and a zero word that stands there.
#[tactic(auto, unfolding(crate::specs::WholeRun::used_to))]
fn used(end: usize, zero: bool) -> usize
    requires { end + 4 < 2 ^ 64 }
    ensures { result ≡ used_to end zero }
{
    if zero { end + 4 } else { end }
}

// Writes the front of a table, as it stands, and a zero word behind it to the front of an output that has room for both.
fn write_rescued(front: &[u8], order: ByteOrder, output: &mut [u8])
    requires { length front.now + 4 ≤ length output.old }
    ensures { output.new ≡ over output.old 0 (front.now ++ header_bytes order 0) }
{
    copy(front, output);
    put_header(0, order, output, front.len());
}

// Rescues a table into the output: its entry, its whole sections from the start as they stand, and a zero word.
#[tactic(auto, using(crate::proofs::AnswerLaws::table_long, crate::proofs::AnswerLaws::entry_cut, crate::proofs::AnswerLaws::result_long, crate::proofs::AnswerLaws::output_short, crate::proofs::AnswerLaws::output_kept, crate::proofs::WholeRunLaws::length_rescued))]
pub fn rescue(table: &[u8], order: ByteOrder, output: &mut [u8]) -> Result<Rescued, Refusal>
    ensures value { answer_of result ≡ rescue_answer order table.now (length output.old) }
    ensures output_after { output.new ≡ rescue_output order table.now output.old }
{
    if TABLE_LIMIT < table.len() {
        return Err(Refusal::TableLong);
    }
    if table.len() < 4 {
        return Err(Refusal::TableCut { place: 0 });
    }
    let run = whole_run(table, order);
    let length = run.end + 4;
    if TABLE_LIMIT < length {
        return Err(Refusal::ResultLong);
    }
    if output.len() < length {
        return Err(Refusal::OutputShort);
    }
    write_rescued(&table[..run.end], order, output);
    let unused = table.len() - used(run.end, run.zero);
    Ok(Rescued {
        length,
        sections: run.sections,
        unused,
        added: !run.zero,
    })
}
