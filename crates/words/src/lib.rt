// Words, header words in either byte order, pads and runs of bytes, with which maps and tables are read and stored, and why a call refuses.
#![tactic(auto)]

ghost use Rattle.std.specs.Prelude.{◌++◌, ◌≡◌, ◌+◌, ◌*◌, ◌^◌, ◌≤◌, ◌<◌, length, drop};
ghost use Rattle.words.specs.Word.{word_at, pad_count};
ghost use Rattle.words.specs.Header.{header_at, header_bytes};
ghost use Rattle.words.specs.Run.{over};

mod refusal;

pub use refusal::Refusal;

// The highest address and one more: 2^32.
pub const TOP: u64 = 4_294_967_296;

// A word of four bytes, the most significant first.
fn word(a: u8, b: u8, c: u8, d: u8) -> u32
    ensures { result ≡ ((a * 256 + b) * 256 + c) * 256 + d }
{
    ((a as u32 * 256 + b as u32) * 256 + c as u32) * 256 + d as u32
}

// A word of four bytes, the least significant first. `word(d, c, b, a)` is the same number, but with it loading is slower.
fn low_word(a: u8, b: u8, c: u8, d: u8) -> u32
    ensures { result ≡ a + b * 256 + c * 65536 + d * 16777216 }
{
    a as u32 + b as u32 * 256 + c as u32 * 65_536 + d as u32 * 16_777_216
}

// The word that stands at an offset.
pub fn word_at(bytes: &[u8], at: usize) -> u32
    requires { at + 4 ≤ length bytes.now }
    ensures { result ≡ word_at bytes.now at }
{
    word(bytes[at], bytes[at + 1], bytes[at + 2], bytes[at + 3])
}

// The order of the bytes of a boot table's header words, which are its entry and each section's size and address.
#[derive(Clone, Copy, Debug, PartialEq, Eq)]
pub enum ByteOrder {
    HighFirst,
    LowFirst,
}

// The header word that stands at an offset of a table.
pub fn header_at(table: &[u8], order: ByteOrder, at: usize) -> u32
    requires { at + 4 ≤ length table.now }
    ensures { result ≡ header_at order table.now at }
{
    match order {
        ByteOrder::HighFirst => word_at(table, at),
        ByteOrder::LowFirst => low_word(table[at], table[at + 1], table[at + 2], table[at + 3]),
    }
}

// So many data bytes and their pads: the next multiple of four.
pub fn padded(size: u32) -> usize
    ensures { result ≡ size + pad_count size }
{
    (size as usize + 3) / 4 * 4
}

// Copies a run of bytes to the front of a part. The compiler makes one call of memcpy of the loop, and none of
// `copy_from_slice`, which is slower (docs/BENCHMARK.md).
pub fn copy(run: &[u8], part: &mut [u8])
    requires { length run.now ≤ length part.old }
    ensures { part.new ≡ run.now ++ drop (length run.now) part.old }
{
    for i in 0..run.len() {
        part[i] = run[i];
    }
}

// Stores four bytes in an output, from an offset on.
pub fn put_four(four: [u8; 4], output: &mut [u8], at: usize)
    requires { at + 4 ≤ length output.old }
    ensures { output.new ≡ over output.old at four }
{
    copy(&four, &mut output[at..]);
}

// Writes a header word into an output, at an offset. Each order stores its own four bytes: to choose the bytes and then store them is slower.
pub fn put_header(word: u32, order: ByteOrder, output: &mut [u8], at: usize)
    requires { at + 4 ≤ length output.old }
    ensures { output.new ≡ over output.old at (header_bytes order word) }
{
    match order {
        ByteOrder::HighFirst => put_four(word.to_be_bytes(), output, at),
        ByteOrder::LowFirst => put_four(word.to_le_bytes(), output, at),
    }
}
