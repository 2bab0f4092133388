// Files made from words, as the cases have them.
#![tactic(auto)]

ghost use Rattle.std.specs.Prelude.{◌≡◌, ◌^◌, ◌<◌, length, IfOk};
ghost use Rattle.words.specs.Headers.{headed};
ghost use Rattle.words.specs.Words.{bytes_of};

use std::alloc::{AllocError, Global};

const VERSION: u8 = 1;

// The file of some words: the version, the length of the rest in four bytes, and the words, high bytes first.
pub fn file_of_words(heap: Global, words: &[u16]) -> Result<Vec<u8>, AllocError>
    ensures answer { IfOk result (λ bytes. length words.now < 2 ^ 31 → bytes.items ≡ headed (bytes_of words.now)) }
{
    let length = (words.len() % 0x8000_0000 * 2) as u32;
    let mut bytes = Vec::new(heap);
    bytes.push(VERSION)?;
    bytes.extend_from_slice(&length.to_be_bytes())?;
    for word in words {
        bytes.extend_from_slice(&word.to_be_bytes())?;
    }
    Ok(bytes)
}
