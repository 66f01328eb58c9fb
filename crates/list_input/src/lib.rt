// Reads one boot table and prints its text: what the listers do.
#![tactic(auto)]

ghost use Rattle.std.specs.Prelude.{◌≡◌, ◌≤◌, IfOk, IfSome, OnOk, OnErr, length, take};
ghost use Rattle.std.specs.Io.KnownBytes.{Appends};
ghost use Rattle.listing.specs.Listing.{text};
ghost use Rattle.list_input.specs.Front.{AppendsFront};

use std::io;
use std::io::{ErrorKind, Read, Write};
use words::ByteOrder;

// One byte more than an input may have.
fn input_space() -> [u8; 65537]
    ensures { 65537 ≡ length result }
{
    [0; 65537]
}

// Room for the text of the longest input.
fn output_space() -> [u8; 131104]
    ensures { 131104 ≡ length result }
{
    [0; 131104]
}

// Reads until the buffer is full or the input ends, and answers how many bytes were read.
fn read_full<R: Read>(input: &mut R, buffer: &mut [u8]) -> io::Result<usize>
    ensures bound { IfOk result (λ n. n ≤ length buffer.new) }
    ensures bytes { IfOk result (λ n. IfSome (R.remaining input.old) (λ xs. take n buffer.new ≡ take (length buffer.old) xs)) }
{
    let mut done: usize = 0;
    while done < buffer.len() {
        let n = input.read(&mut buffer[done..])?;
        if n == 0 {
            break;
        }
        done += n;
    }
    Ok(done)
}

// Writes all bytes. Where a write fails, or takes nothing, the rest is not written.
fn write_all<W: Write>(output: &mut W, bytes: &[u8]) -> io::Result<()>
    ensures ok { OnOk result (Appends (W.contents output.old) (W.contents output.new) bytes.now) }
    ensures err { OnErr result (AppendsFront (W.contents output.old) (W.contents output.new) bytes.now) }
{
    let mut done: usize = 0;
    while done < bytes.len() {
        let n = output.write(&bytes[done..])?;
        if n == 0 {
            return Err(io::Error::from(ErrorKind::WriteZero));
        }
        done += n;
    }
    Ok(())
}

// Lists the table that the input has; its header words are read in the byte order that is given. Where reading fails,
// nothing is written.
pub fn list_input<R: Read, W: Write>(
    input: &mut R,
    output: &mut W,
    order: ByteOrder,
) -> io::Result<()>
    ensures ok { OnOk result (IfSome (R.remaining input.old) (λ xs. Appends (W.contents output.old) (W.contents output.new) (text order xs))) }
    ensures err { OnErr result (IfSome (R.remaining input.old) (λ xs. AppendsFront (W.contents output.old) (W.contents output.new) (text order xs))) }
{
    let mut table = input_space();
    let n = read_full(input, &mut table)?;
    let mut text = output_space();
    let m = listing::list(&table[..n], order, &mut text);
    write_all(output, &text[..m])
}
