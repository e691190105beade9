// The place of a byte among others, and what stands before and behind it.
ghost use Rattle.std.specs.Prelude.{◌≡◌, ◌<◌, length, MatchOption};
ghost use Rattle.events.specs.Places.{index_of, Cut};

// The place of the first byte of a value, if there is one.
pub fn find(bytes: &[u8], byte: u8) -> Option<usize>
    ensures { MatchOption result (index_of byte bytes.now ≡ length bytes.now)
        (λ place. (place ≡ index_of byte bytes.now) × (place < length bytes.now)) }
{
    bytes.iter().position(|b| *b == byte)
}

// What stands before the first byte of a value and what stands behind it, if there is one.
pub fn split_once(bytes: &[u8], byte: u8) -> Option<(&[u8], &[u8])>
    ensures { MatchOption result (index_of byte bytes.now ≡ length bytes.now)
        (λ parts. Cut byte bytes.now parts.0.now parts.1.now) }
{
    let place = find(bytes, byte)?;
    Some((&bytes[..place], &bytes[place + 1..]))
}
