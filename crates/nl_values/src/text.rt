//! Texts: which payloads are one.

ghost use Rattle.std.specs.Prelude.{◌≡◌, ◌==◌, None, Some, if◌then◌else◌};
ghost use Rattle.std.specs.List.{list_all, position, position_or_len};
ghost use Rattle.std.specs.Option.{option_map};
ghost use Rattle.nl_values.specs.Texts.{has_plain, is_ended, is_plain, is_text, stem_of};

/// The index of the first zero byte.
fn zero_at(bytes: &[u8]) -> Option<usize>
    ensures { result ≡ position (λ b. b == 0) bytes.now }
{
    bytes.iter().position(|b| *b == 0)
}

/// How many bytes stand in front of the first zero byte.
#[tactic(auto, using(crate::proofs::Texts::or_all))]
fn stem_len(bytes: &[u8]) -> usize
    ensures { result ≡ position_or_len (λ b. b == 0) bytes.now }
{
    zero_at(bytes).unwrap_or(bytes.len())
}

/// The bytes in front of the first zero byte.
pub(crate) fn stem(bytes: &[u8]) -> &[u8]
    ensures { result.now ≡ stem_of bytes.entry.now }
{
    let end = stem_len(bytes);
    &bytes[..end]
}

fn all_zero(bytes: &[u8]) -> bool
    ensures { result ≡ list_all (λ b. b == 0) bytes.now }
{
    bytes.iter().all(|b| *b == 0)
}

/// Whether only zero bytes stand behind the first one.
#[tactic(auto, using(crate::proofs::Texts::stem_bound))]
fn has_only_zeros_behind(bytes: &[u8]) -> bool
    ensures { result ≡ is_ended bytes.now }
{
    all_zero(&bytes[stem_len(bytes)..])
}

/// Whether a byte of a text is no part of a control character, behind this other byte.
fn is_plain_behind(before: u8, byte: u8) -> bool
    ensures { result ≡ is_plain before byte }
{
    byte >= 0x20 && byte != 0x7f && (before != 0xc2 || byte >= 0xa0)
}

/// Whether no byte of a text is of a control character.
fn is_free_of_controls(bytes: &[u8]) -> bool
    ensures { result ≡ has_plain 0 bytes.now }
{
    let mut before = 0;
    for byte in bytes {
        if !is_plain_behind(before, *byte) {
            return false;
        }
        before = *byte;
    }
    true
}

/// The text that a payload is, without zero bytes at its end. `None` where it is none: it isn't
/// valid UTF-8, or it has a control character.
pub(crate) fn text_in(bytes: &[u8]) -> Option<&str>
    ensures { option_map (λ r. r.now) result
        ≡ (if is_text bytes.entry.now then Some (stem_of bytes.entry.now) else None) }
{
    let stem = stem(bytes);
    if !has_only_zeros_behind(bytes) || !is_free_of_controls(stem) {
        return None;
    }
    match str::from_utf8(stem) {
        Ok(text) => Some(text),
        Err(_) => None,
    }
}
