// Every refusal at its places.
use crate::files::{verdict, words_verdict};
use std::test::Fail;

#[test]
fn bytes_that_are_refused(rt: HostRuntime) {
    assert_eq!(rt; verdict(&[]), Err((1, 0, 0)));
    assert_eq!(rt; verdict(&[2, 0, 0, 0, 0]), Err((1, 0, 0)));
    assert_eq!(rt; verdict(&[1, 0, 0, 0]), Err((2, 0, 0)));
    assert_eq!(rt; verdict(&[1, 0, 0, 0, 1]), Err((2, 0, 0)));
    assert_eq!(rt; verdict(&[1, 0, 0, 0, 0]), Err((2, 0, 0)));
    assert_eq!(rt; verdict(&[1, 0, 0, 0, 1, 0]), Err((2, 0, 0)));
    assert_eq!(rt;
        verdict(&[1, 0, 0, 0, 11, 0, 0, 0, 1, 0, 1, 0, 0, 0, 0, 0]),
        Err((2, 0, 0))
    );
}

#[test]
fn heads_that_are_refused(rt: HostRuntime) -> Result<(), Fail> {
    let heap = rt.alloc();
    assert_eq!(rt; words_verdict(heap, &[17])?, Err((3, 0, 0)));
    assert_eq!(rt; words_verdict(heap, &[1])?, Err((2, 0, 0)));
    assert_eq!(rt; words_verdict(heap, &[1, 0])?, Err((3, 0, 0)));
    assert_eq!(rt; words_verdict(heap, &[1, 257])?, Err((3, 0, 0)));
    assert_eq!(rt; words_verdict(heap, &[0, 0])?, Err((3, 0, 0)));
    assert_eq!(rt; words_verdict(heap, &[0, 257])?, Err((3, 0, 0)));
    assert_eq!(rt; words_verdict(heap, &[0, 1])?, Err((2, 0, 0)));
    assert_eq!(rt; words_verdict(heap, &[1, 3, 1, 1, 3])?, Err((3, 0, 0)));
    assert_eq!(rt; words_verdict(heap, &[1, 3, 1, 1])?, Err((2, 0, 0)));
    assert_eq!(rt; words_verdict(heap, &[0, 1, 0, 0, 0])?, Err((18, 0, 0)));
    assert_eq!(rt; words_verdict(heap, &[0, 1, 2, 0, 0])?, Err((18, 0, 0)));
    assert_eq!(rt; words_verdict(heap, &[0, 1, 1, 0, 0, 0])?, Err((2, 0, 0)));
    Ok(())
}

#[test]
fn sections_that_are_cut_or_off_their_limits(rt: HostRuntime) -> Result<(), Fail> {
    let heap = rt.alloc();
    assert_eq!(rt; words_verdict(heap, &[0, 1, 1])?, Err((2, 1, 0)));
    assert_eq!(rt; words_verdict(heap, &[0, 1, 1, 257])?, Err((3, 1, 0)));
    assert_eq!(rt; words_verdict(heap, &[0, 1, 1, 0])?, Err((2, 2, 0)));
    assert_eq!(rt; words_verdict(heap, &[0, 1, 1, 0, 257])?, Err((3, 2, 0)));
    assert_eq!(rt; words_verdict(heap, &[0, 1, 1, 0, 1])?, Err((2, 2, 0)));
    assert_eq!(rt;
        words_verdict(heap, &[0, 1, 1, 0, 2, 1, 0, 0, 0, 1, 1, 9])?,
        Err((3, 2, 1))
    );
    assert_eq!(rt;
        words_verdict(heap, &[0, 1, 1, 0, 1, 1, 0, 9])?,
        Err((3, 2, 0))
    );
    assert_eq!(rt;
        words_verdict(heap, &[0, 1, 1, 0, 1, 1, 0, 8])?,
        Err((2, 2, 0))
    );
    assert_eq!(rt;
        words_verdict(heap, &[1, 1, 1, 1, 0, 1, 1, 0, 0, 0, 5])?,
        Err((3, 1, 0))
    );
    assert_eq!(rt;
        words_verdict(heap, &[1, 1, 1, 1, 0, 0, 1, 1, 0, 0, 0, 1, 0])?,
        Err((2, 2, 0))
    );
    Ok(())
}

#[test]
fn what_is_none(rt: HostRuntime) -> Result<(), Fail> {
    let heap = rt.alloc();
    // one variable of size 2, one program counter: an action summand, then a delay summand
    assert_eq!(rt;
        words_verdict(heap, &[1, 2, 1, 1, 0, 1, 1, 0, 0, 63, 0, 0, 0, 1, 1, 0, 0])?,
        Ok(())
    );
    assert_eq!(rt;
        words_verdict(heap, &[1, 2, 1, 1, 0, 1, 2, 0, 0, 63, 0, 0, 0, 1, 1, 0, 0])?,
        Err((18, 1, 0))
    );
    assert_eq!(rt;
        words_verdict(heap, &[1, 2, 1, 1, 0, 1, 1, 0, 0, 64, 0, 0, 0, 1, 1, 0, 0])?,
        Err((18, 1, 0))
    );
    assert_eq!(rt;
        words_verdict(heap, &[1, 2, 1, 1, 0, 1, 1, 0, 0, 63, 0, 1, 0, 1, 1, 0, 0])?,
        Err((18, 1, 0))
    );
    assert_eq!(rt;
        words_verdict(heap, &[1, 2, 1, 1, 0, 1, 1, 0, 0, 63, 0, 0, 0, 0, 1, 0, 0])?,
        Err((18, 1, 0))
    );
    assert_eq!(rt;
        words_verdict(heap, &[1, 2, 1, 1, 0, 1, 1, 0, 0, 63, 0, 0, 0, 1, 1, 1, 0])?,
        Err((18, 1, 0))
    );
    assert_eq!(rt;
        words_verdict(heap, &[1, 2, 1, 1, 0, 1, 1, 0, 0, 63, 0, 0, 0, 1, 3, 0, 0])?,
        Err((18, 1, 0))
    );
    assert_eq!(rt;
        words_verdict(
            heap,
            &[1, 2, 1, 1, 0, 1, 1, 1, 0, 0, 63, 0, 0, 0, 1, 1, 0, 0],
        )?,
        Err((18, 1, 0))
    );
    assert_eq!(rt;
        words_verdict(heap, &[1, 2, 1, 1, 0, 0, 1, 1, 2, 0, 0, 0, 9, 1, 1, 0])?,
        Err((18, 2, 0))
    );
    assert_eq!(rt;
        words_verdict(heap, &[1, 2, 1, 1, 0, 0, 1, 1, 1, 1, 0, 9, 1, 1, 0])?,
        Err((18, 2, 0))
    );
    assert_eq!(rt;
        words_verdict(heap, &[1, 2, 1, 1, 0, 0, 1, 1, 1, 0, 0, 9, 1, 0, 7])?,
        Err((18, 2, 0))
    );
    Ok(())
}

#[test]
fn products(rt: HostRuntime) -> Result<(), Fail> {
    let heap = rt.alloc();
    assert_eq!(rt;
        words_verdict(
            heap,
            &[
                3, 256, 256, 2, 1, 1, 0, 0, 0, 0, 1, 1, 2, 0, 1, 0, 9, 1, 1, 0, 1, 0, 1, 0,
            ],
        )?,
        Ok(())
    );
    assert_eq!(rt;
        words_verdict(
            heap,
            &[
                3, 256, 256, 2, 1, 1, 0, 0, 0, 0, 1, 1, 3, 0, 1, 2, 0, 9, 1, 1, 0, 1, 0, 1, 0,
            ],
        )?,
        Err((8, 2, 0))
    );
    // a later summand that is misnamed comes before an earlier product
    assert_eq!(rt;
        words_verdict(
            heap,
            &[
                3, 256, 256, 2, 1, 1, 0, 0, 0, 0, 2, 1, 3, 0, 1, 2, 0, 9, 1, 1, 0, 1, 0, 1, 0, 2,
                0, 0, 9, 1, 1, 0, 1, 0, 1, 0,
            ],
        )?,
        Err((18, 2, 1))
    );
    Ok(())
}
