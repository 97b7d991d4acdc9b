ghost use Rattle.std.specs.Prelude.{◌≡◌, ◌≢◌, ◌<◌, ◌^◌, ◌++◌, ◌∷◌, List, ℕ, length, IfSome, IfNone, MatchOption};
ghost use Rattle.std.specs.Int.{w16, w32, to_be_bytes};

// What follows this prefix of the bytes. None exactly where they don't begin with it.
pub fn behind<'a>(bytes: &'a [u8], prefix: &[u8]) -> Option<&'a [u8]>
    ensures { MatchOption result ((rest : List ℕ) → bytes.now ≢ prefix.now ++ rest) (λ rest. bytes.now ≡ prefix.now ++ rest.now) }
{
    bytes.strip_prefix(prefix)
}

// The big-endian number in the first two bytes, and what follows them. None exactly where there
// are fewer.
pub fn half_at(bytes: &[u8]) -> Option<(u16, &[u8])>
    ensures found { IfSome result (λ read. bytes.now ≡ to_be_bytes w16 read.0 ++ read.1.now) }
    ensures range { IfSome result (λ read. read.0 < 2 ^ 16) }
    ensures none { IfNone result (length bytes.now < 2) }
{
    if bytes.len() < 2 {
        return None;
    }
    let (first, rest) = bytes.split_at(2);
    Some((u16::from_be_bytes([first[0], first[1]]), rest))
}

// The big-endian number in the first four bytes, and what follows them. None exactly where there
// are fewer.
pub fn word_at(bytes: &[u8]) -> Option<(u32, &[u8])>
    ensures found { IfSome result (λ read. bytes.now ≡ to_be_bytes w32 read.0 ++ read.1.now) }
    ensures range { IfSome result (λ read. read.0 < 2 ^ 32) }
    ensures none { IfNone result (length bytes.now < 4) }
{
    if bytes.len() < 4 {
        return None;
    }
    let (first, rest) = bytes.split_at(4);
    Some((
        u32::from_be_bytes([first[0], first[1], first[2], first[3]]),
        rest,
    ))
}

// The first byte, and what follows it. None exactly where there is none.
pub fn byte_at(bytes: &[u8]) -> Option<(u8, &[u8])>
    ensures found { IfSome result (λ read. bytes.now ≡ read.0 ∷ read.1.now) }
    ensures range { IfSome result (λ read. read.0 < 256) }
    ensures none { IfNone result (length bytes.now < 1) }
{
    let (first, rest) = bytes.split_first()?;
    Some((*first, rest))
}
