// The values of a table file.
ghost use Rattle.std.specs.Prelude.{◌≡◌, ◌+◌, ◌*◌, ◌≤◌, length, IfOk};
ghost use Rattle.table.specs.Files.{total_of, values_place, words_from};

use arrayvec::ArrayVec;
use language::DataFault;
use words::word_at;

const MOST_VALUES: u16 = 4096;

// How many values follow `count` records; they are the rest of the file.
pub(crate) fn value_count(bytes: &[u8], count: usize) -> Result<u16, DataFault>
    requires few { count ≤ 256 }
    ensures answer { result ≡ total_of bytes.now count }
    ensures few { IfOk result (λ t. t ≤ 4096) }
    ensures room { IfOk result (λ t. values_place count + 2 * t ≤ length bytes.now) }
{
    let at = 7 + 8 * count;
    if bytes.len() < at + 2 {
        return Err(DataFault::Length(0));
    }
    let total = word_at(bytes, at);
    if total > MOST_VALUES {
        return Err(DataFault::Rule(0));
    }
    if bytes.len() != at + 2 + 2 * usize::from(total) {
        return Err(DataFault::Length(0));
    }
    Ok(total)
}

// The first `total` values of a file, from byte `at` on.
pub(crate) fn values(bytes: &[u8], at: usize, total: u16) -> ArrayVec<u16, 4096>
    requires within { at + 2 * total ≤ length bytes.now }
    requires few { total ≤ 4096 }
    ensures answer { result.items ≡ words_from bytes.now at total }
{
    let (words, _) = bytes[at..at + 2 * usize::from(total)].as_chunks::<2>();
    let mut values = ArrayVec::new();
    for word in words {
        values.push(u16::from_be_bytes(*word));
    }
    values
}
