// Files made from words, and what becomes of them.
use model::{Model, accept, open};
use model_file::FaultCode;
use std::alloc::{AllocError, Global};
use std::iter;
use word_files::file_of_words;

// What becomes of a file: it is accepted, or its fault has this number, section and record.
pub(crate) type Verdict = Result<(), (u16, u16, u16)>;

// The words of the nodes between those of the first four sections, with the count of nodes, and those of the arguments.
fn sections(
    heap: Global,
    head: &[u16],
    nodes: &[[u16; 6]],
    arguments: &[u16],
) -> Result<Vec<u16>, AllocError> {
    let mut words = head.to_vec(heap)?;
    for node in nodes {
        words.extend_from_slice(node)?;
    }
    words.extend_from_slice(arguments)?;
    Ok(words)
}

// One variable, the length of a queue of at most two; while it is below 2, a delay and then one more.
pub(crate) fn queue(heap: Global) -> Result<Vec<u16>, AllocError> {
    let nodes = [[2, 2, 1, 0, 0, 0], [6, 5, 2, 0, 0, 0], [1, 0, 0, 0, 0, 0]];
    sections(heap, &[1, 3, 1, 0, 1, 0, 0, 0, 1, 0, 3], &nodes, &[1, 4])
}

const ALL_KINDS: [[u16; 6]; 10] = [
    [2, 0, 1, 0, 0, 0], // 0: condition
    [3, 2, 4, 0, 0, 0], // 1: choice
    [4, 1, 3, 0, 0, 0], // 2: sum
    [6, 0, 6, 0, 0, 0], // 3: delay
    [5, 1, 0, 2, 0, 5], // 4: action
    [6, 0, 7, 0, 0, 0], // 5: delay
    [1, 0, 0, 0, 0, 0], // 6: call
    [1, 0, 1, 0, 0, 0], // 7: call
    [6, 0, 9, 0, 0, 0], // 8: delay
    [1, 1, 0, 0, 0, 0], // 9: call
];

// Three variables, bound by a parameter, a sum and an action; two processes, and nodes of every kind.
pub(crate) fn all_kinds(heap: Global) -> Result<Vec<u16>, AllocError> {
    let head = [3, 3, 4, 5, 2, 0, 1, 0, 0, 0, 8, 0, 2, 2, 0, 3, 10];
    sections(heap, &head, &ALL_KINDS, &[3, 0, 0, 0])
}

// What becomes of a file with one process and these nodes, of which the first is its body; it has one variable of size 2.
pub(crate) fn of_nodes(
    heap: Global,
    count: u16,
    nodes: &[[u16; 6]],
) -> Result<Verdict, AllocError> {
    let words = sections(heap, &[1, 2, 1, 0, 0, 0, 0, 1, 0, count], nodes, &[0])?;
    of_words(heap, &words)
}

pub(crate) fn verdict(bytes: &[u8]) -> Verdict {
    let mut model = Model::smallest();
    accept(open(bytes), &mut model).map_err(|fault| {
        let FaultCode {
            number,
            section,
            record,
        } = fault.code();
        (number, section, record)
    })
}

pub(crate) fn of_words(heap: Global, words: &[u16]) -> Result<Verdict, AllocError> {
    let bytes = file_of_words(heap, words)?;
    Ok(verdict(&bytes))
}

// So many times the word at the end.
pub(crate) fn repeat(words: &mut Vec<u16>, word: u16, times: u16) -> Result<(), AllocError> {
    words.extend(iter::repeat_n(word, usize::from(times)))
}
