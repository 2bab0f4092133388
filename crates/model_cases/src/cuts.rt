// Headers, and files that are cut or too long.
use super::build::*;
use std::test::Fail;
use word_files::file_of_words;

#[test]
fn headers(rt: HostRuntime) -> Result<(), Fail> {
    assert_eq!(rt; verdict(&[]), Err((1, 0, 0)));
    assert_eq!(rt; verdict(&[2, 0, 0, 0, 0]), Err((1, 0, 0)));
    assert_eq!(rt; verdict(&[1]), Err((2, 0, 0)));
    assert_eq!(rt; verdict(&[1, 0, 0, 0]), Err((2, 0, 0)));
    assert_eq!(rt; verdict(&[1, 0, 0, 0, 1]), Err((2, 0, 0)));
    assert_eq!(rt; verdict(&[1, 0, 1, 0, 0]), Err((2, 0, 0)));
    assert_eq!(rt; verdict(&[1, 0, 0, 0, 0]), Err((2, 1, 0)));
    let words = queue(rt.alloc())?;
    assert_eq!(rt; of_words(rt.alloc(), &words)?, Ok(()));
    Ok(())
}

// A word and a half: an odd byte is a record that is cut.
#[test]
fn odd_bytes(rt: HostRuntime) -> Result<(), Fail> {
    assert_eq!(rt;
        verdict(&[1, 0, 0, 0, 1, 0]),
        Err((2, 1, 0)),
        "half a count"
    );
    assert_eq!(rt;
        verdict(&[1, 0, 0, 0, 3, 0, 1, 0]),
        Err((2, 1, 0)),
        "half a size"
    );
    let words = queue(rt.alloc())?;
    let mut bytes = file_of_words(rt.alloc(), &words)?;
    bytes.push(0)?;
    assert!(rt; bytes.len() == 68);
    bytes[4] = 63;
    assert_eq!(rt; verdict(&bytes), Err((2, 0, 0)), "a byte left over");
    Ok(())
}

// The fault when only so many words of the file of all kinds are there.
fn cut_after(words: usize) -> Verdict {
    match words {
        0 => Err((2, 1, 0)),
        1..=3 => Err((2, 1, (words - 1) as u16)),
        4 => Err((2, 2, 0)),
        5..=10 => Err((2, 2, ((words - 5) / 3) as u16)),
        11..=12 => Err((2, 3, 0)),
        13 => Err((2, 4, 0)),
        14..=15 => Err((2, 4, (words - 14) as u16)),
        16 => Err((2, 5, 0)),
        17..=76 => Err((2, 5, ((words - 17) / 6) as u16)),
        77 => Err((2, 6, 0)),
        78..=80 => Err((2, 6, (words - 78) as u16)),
        _ => Ok(()),
    }
}

#[test]
fn cut_anywhere(rt: HostRuntime) -> Result<(), Fail> {
    let words = all_kinds(rt.alloc())?;
    assert_eq!(rt; words.len(), 81);
    for n in 0..words.len() {
        assert_eq!(rt; of_words(rt.alloc(), &words[0..n])?, cut_after(n));
    }
    Ok(())
}
