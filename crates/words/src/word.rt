// Words at a position.
ghost use Rattle.std.specs.Prelude.{◌≡◌};
ghost use Rattle.words.specs.Words.{word_at};

// The word whose two bytes begin at `at`, high byte first; a byte beyond the end counts as 0.
pub fn word_at(bytes: &[u8], at: usize) -> u16
    ensures answer { result ≡ word_at bytes.now at }
{
    let high = bytes.get(at).copied().unwrap_or(0);
    let low = bytes.get(at.saturating_add(1)).copied().unwrap_or(0);
    u16::from_be_bytes([high, low])
}
