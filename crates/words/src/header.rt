// The header of a file: a version byte, then the length of the rest in four bytes.
ghost use Rattle.std.specs.Prelude.{◌≡◌, drop, Ok};
ghost use Rattle.words.specs.Headers.{header_of, headed, Iff};

const VERSION: u8 = 1;

// Why a header is refused.
#[derive(Clone, Copy, Debug, PartialEq, Eq)]
pub enum HeaderFault {
    // the version byte is missing or not 1
    Version,
    // the header is cut, or its length is not the number of bytes after it
    Length,
}

// Tests the header that a whole file begins with: the version first, then the length.
pub fn check_header(bytes: &[u8]) -> Result<(), HeaderFault>
    ensures answer { result ≡ header_of bytes.now }
    ensures rules { Iff (result ≡ Ok tt) (bytes.now ≡ headed (drop 5 bytes.now)) }
{
    match *bytes {
        [VERSION, a, b, c, d, ref rest @ ..]
            if u32::from_be_bytes([a, b, c, d]) as usize == rest.len() => Ok(()),
        [VERSION, ..] => Err(HeaderFault::Length),
        _ => Err(HeaderFault::Version),
    }
}
