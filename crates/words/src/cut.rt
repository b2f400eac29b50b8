//! Cutting at a byte.
ghost use Rattle.std.specs.Prelude.{◌≡◌, ◌<◌, ◌≤◌, [], ◌∷◌, ◌==◌, length, position, MatchOption, IfSome};
ghost use Rattle.std.specs.List.{position_or_len};
ghost use Rattle.words.specs.Parts.{parts};

/// Where the first `mark` stands.
fn place_of(bytes: &[u8], mark: u8) -> Option<usize>
    ensures { result ≡ position (λ b. b == mark) bytes.now }
{
    bytes.iter().position(|&byte| byte == mark)
}

/// How many bytes stand before the first `mark`, and all where there is none.
pub(crate) fn length_to(bytes: &[u8], mark: u8) -> usize
    ensures place { result ≡ position_or_len (λ b. b == mark) bytes.now }
    ensures within { result ≤ length bytes.now }
{
    place_of(bytes, mark).unwrap_or(bytes.len())
}

/// What stands before the first `mark`, and what stands behind it.
pub fn cut(bytes: &[u8], mark: u8) -> Option<(&[u8], &[u8])>
    ensures parts { MatchOption result (parts mark bytes.now ≡ bytes.now ∷ []) (λ c. parts mark bytes.now ≡ c.0.now ∷ parts mark c.1.now) }
    ensures shorter { IfSome result (λ c. length c.1.now < length bytes.now) }
{
    let end = length_to(bytes, mark);
    if end < bytes.len() {
        Some((&bytes[..end], &bytes[end + 1..]))
    } else {
        None
    }
}
