// The records of a data file, one for each expression, which follow the count.
ghost use Rattle.std.specs.Prelude.{◌≡◌, ℕ, ◌≤◌, Option, IfOk, Ok, Err, MatchResult, slice_index};
ghost use Rattle.language.specs.Files.{record_at, records_of};
ghost use Rattle.arrayvec.specs.ArrayVec.{array_vec_len};

use crate::fault::DataFault;
use crate::file::record_count;
use arrayvec::ArrayVec;
use words::word_at;

// A record of a data file.
pub trait FileRecord: Copy + Default {
    // record k by its four words, or none where a word is off its rules
    ghost decoded: { ℕ → ℕ → ℕ → ℕ → ℕ → Option Self };

    // Record `k` by its four words, or none where a word is off its rules.
    fn decode(k: u16, words: [u16; 4]) -> Option<Self>
        ensures answer { result ≡ decoded k (slice_index words 0) (slice_index words 1) (slice_index words 2) (slice_index words 3) };
}

// Record `k` of a file, or its fault.
fn record_at<T: FileRecord>(bytes: &[u8], k: u16) -> Result<T, DataFault>
    ensures answer { result ≡ record_at T.decoded bytes.now k }
{
    // the header and the count are 7 bytes, and each record before it is 8
    let at = 7 + 8 * usize::from(k);
    if bytes.len() < at + 8 {
        return Err(DataFault::Length(k));
    }
    let words = [at, at + 2, at + 4, at + 6].map(|place| word_at(bytes, place));
    T::decode(k, words).ok_or(DataFault::Rule(k))
}

// All records of a file, or the first fault up to their end.
pub fn records<T: FileRecord>(bytes: &[u8]) -> Result<ArrayVec<T, 256>, DataFault>
    ensures answer { MatchResult result (λ rs. records_of T.decoded bytes.now ≡ Ok rs.items) (λ x. records_of T.decoded bytes.now ≡ Err x) }
    ensures room { IfOk result (λ rs. array_vec_len rs ≤ 256) }
{
    let count = record_count(bytes)?;
    let mut records = ArrayVec::new();
    for k in 0..count {
        records.push(record_at(bytes, k)?);
    }
    Ok(records)
}
