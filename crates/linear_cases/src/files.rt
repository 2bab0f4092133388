// What reading linear files and writing them back answers.
use linear::Equation;
use linear_read::read;
use linear_write::write;
use std::alloc::{AllocError, Global};
use word_files::file_of_words;

// Whether a file is taken, or the number, group and summand of its refusal.
pub(crate) fn verdict(bytes: &[u8]) -> Result<(), (u16, u16, u16)> {
    let mut equation = Equation::smallest();
    read(bytes, &mut equation).map_err(|fault| (fault.number(), fault.group(), fault.summand()))
}

// The same of the file of some words.
pub(crate) fn words_verdict(
    heap: Global,
    words: &[u16],
) -> Result<Result<(), (u16, u16, u16)>, AllocError> {
    let bytes = file_of_words(heap, words)?;
    Ok(verdict(bytes.as_slice()))
}

// Whether a file is taken, and written back byte for byte.
pub(crate) fn comes_back(bytes: &[u8]) -> bool {
    let mut equation = Equation::smallest();
    if read(bytes, &mut equation).is_err() {
        return false;
    }
    let mut out = [9; 256];
    match write(&equation, &mut out) {
        Ok(length) => length < 256
            && length == bytes.len()
            && &out[..length] == bytes
            && out[length] == 9,
        Err(_) => false,
    }
}

// The same of the file of some words.
pub(crate) fn words_come_back(heap: Global, words: &[u16]) -> Result<bool, AllocError> {
    let bytes = file_of_words(heap, words)?;
    Ok(comes_back(bytes.as_slice()))
}
