// What filling a language from a file answers.
use language::FileLanguage;
use std::alloc::{AllocError, Global};
use word_files::file_of_words;

// What filling a language from a file answers: a refusal by its number and record.
pub(crate) fn verdict<L: FileLanguage + Drop>(bytes: &[u8]) -> Result<(), (u16, u16)> {
    let mut language = L::empty();
    language
        .fill(bytes)
        .map_err(|fault| (fault.number(), fault.record()))
}

// The same of the file of some words.
pub(crate) fn words_verdict<L: FileLanguage + Drop>(
    heap: Global,
    words: &[u16],
) -> Result<Result<(), (u16, u16)>, AllocError> {
    let bytes = file_of_words(heap, words)?;
    Ok(verdict::<L>(bytes.as_slice()))
}
