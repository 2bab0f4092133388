// Tables: entries within and beyond the values, and every refusal at its place.
use crate::files::{verdict, words_verdict};
use language::{FileLanguage, Language};
use std::test::Fail;
use table::Table;
use word_files::file_of_words;

// Two records, over variables 3 and 1 and over variable 1 twice, and four values.
const WEIGHTS: [u16; 14] = [2, 3, 1, 2, 0, 1, 1, 1, 3, 4, 7, 1, 3, 9];

#[test]
fn entries_within_and_beyond(rt: HostRuntime) -> Result<(), Fail> {
    let bytes = file_of_words(rt.alloc(), &WEIGHTS)?;
    let mut table = Table::empty();
    assert!(rt; table.fill(bytes.as_slice()).is_ok());
    assert_eq!(rt; table.count(), 2);
    assert_eq!(rt; table.value(0, &[]), 7);
    assert_eq!(rt; table.value(0, &[5, 1, 5]), 1);
    assert_eq!(rt; table.value(0, &[5, 1, 5, 1]), 9);
    assert_eq!(rt; table.value(0, &[5, 0, 5, 2]), 0);
    assert_eq!(rt; table.value(0, &[0, 65535, 0, 65535]), 0);
    assert_eq!(rt; table.value(1, &[]), 9);
    assert_eq!(rt; table.value(1, &[0, 1]), 0);
    assert_eq!(rt; table.value(2, &[]), 0);
    Ok(())
}

#[test]
fn names_are_both_variables(rt: HostRuntime) -> Result<(), Fail> {
    let bytes = file_of_words(rt.alloc(), &WEIGHTS)?;
    let mut table = Table::empty();
    assert!(rt; table.fill(bytes.as_slice()).is_ok());
    assert!(rt; table.names(0, 3) && table.names(0, 1) && !table.names(0, 2));
    assert!(rt; table.names(1, 1) && !table.names(1, 3));
    assert!(rt; !table.names(2, 1));
    Ok(())
}

#[test]
fn files_that_are_refused(rt: HostRuntime) -> Result<(), Fail> {
    let heap = rt.alloc();
    assert_eq!(rt; verdict::<Table>(&[]), Err((31, 0)));
    assert_eq!(rt; verdict::<Table>(&[1, 0, 0, 0, 3, 0, 0, 0]), Err((32, 0)));
    assert_eq!(rt;
        verdict::<Table>(&[1, 0, 0, 0, 7, 0, 0, 0, 1, 0, 5, 0]),
        Err((32, 0))
    );
    assert_eq!(rt; words_verdict::<Table>(heap, &[257])?, Err((33, 0)));
    assert_eq!(rt; words_verdict::<Table>(heap, &[0])?, Err((32, 0)));
    assert_eq!(rt; words_verdict::<Table>(heap, &[0, 0])?, Ok(()));
    assert_eq!(rt; words_verdict::<Table>(heap, &[0, 1])?, Err((32, 0)));
    assert_eq!(rt; words_verdict::<Table>(heap, &[0, 4097])?, Err((33, 0)));
    assert_eq!(rt; words_verdict::<Table>(heap, &[0, 0, 0])?, Err((32, 0)));
    assert_eq!(rt;
        words_verdict::<Table>(heap, &[2, 0, 0, 1, 0, 0, 0, 1])?,
        Err((32, 1))
    );
    Ok(())
}

#[test]
fn records_that_are_refused(rt: HostRuntime) -> Result<(), Fail> {
    let heap = rt.alloc();
    assert_eq!(rt;
        words_verdict::<Table>(heap, &[1, 16, 0, 1, 0, 0])?,
        Err((33, 0))
    );
    assert_eq!(rt;
        words_verdict::<Table>(heap, &[1, 0, 16, 1, 0, 0])?,
        Err((33, 0))
    );
    assert_eq!(rt;
        words_verdict::<Table>(heap, &[1, 0, 0, 0, 0, 0])?,
        Err((33, 0))
    );
    assert_eq!(rt;
        words_verdict::<Table>(heap, &[1, 0, 0, 257, 0, 0])?,
        Err((33, 0))
    );
    assert_eq!(rt;
        words_verdict::<Table>(heap, &[1, 15, 15, 256, 65535, 0])?,
        Ok(())
    );
    assert_eq!(rt;
        words_verdict::<Table>(heap, &[2, 0, 0, 1, 0, 0, 0, 0, 0, 0])?,
        Err((33, 1))
    );
    Ok(())
}

#[test]
fn as_many_values_as_there_may_be(rt: HostRuntime) -> Result<(), Fail> {
    let mut words = [1u16; 4098];
    words[0] = 0;
    words[1] = 4096;
    assert_eq!(rt; words_verdict::<Table>(rt.alloc(), &words)?, Ok(()));
    Ok(())
}
