// Words put at a position.
ghost use Rattle.std.specs.Prelude.{◌≡◌, slice_set};
ghost use Rattle.words.specs.Put.{put_word};

// Puts a byte at `at`; one beyond the end is left out.
// A slice's `get_mut` does not say what a write through it leaves, so the place is indexed.
fn put_byte(bytes: &mut [u8], at: usize, byte: u8)
    ensures leaves { bytes.new ≡ slice_set bytes.old at byte }
{
    if at < bytes.len() {
        bytes[at] = byte;
    }
}

// Puts a word at `at`, high byte first; a byte beyond the end is left out.
pub fn put_word(bytes: &mut [u8], at: usize, word: u16)
    ensures leaves { bytes.new ≡ put_word bytes.old at word }
{
    let [high, low] = word.to_be_bytes();
    put_byte(bytes, at, high);
    put_byte(bytes, at.saturating_add(1), low);
}
