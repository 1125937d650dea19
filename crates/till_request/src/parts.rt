//! Splits texts into parts and takes no memory.
ghost use Rattle.std.specs.Prelude.{◌≡◌, ◌==◌, ◌<◌, ◌∷◌, [], length, map, MatchOption};
ghost use Rattle.std.specs.List.{position, slice_split};

use arrayvec::ArrayVec;

fn place_of(text: &[u8], separator: u8) -> Option<usize>
    ensures { result ≡ position (λ b. b == separator) text.now }
{
    text.iter().position(|b| *b == separator)
}

/// The bytes before the first separator and those after it; the whole text if there is none.
pub fn first_part(text: &[u8], separator: u8) -> (&[u8], Option<&[u8]>)
    ensures { MatchOption result.1 (slice_split (λ b. b == separator) text.now ≡ result.0.now ∷ [])
        (λ rest. (slice_split (λ b. b == separator) text.now
        ≡ result.0.now ∷ slice_split (λ b. b == separator) rest.now)
        × (length rest.now < length text.now)) }
{
    match place_of(text, separator) {
        Some(at) => (&text[..at], Some(&text[at + 1..])),
        None => (text, None),
    }
}

/// The parts between separators, some perhaps empty; `None` if there are more than `N`.
pub fn split_at_most<'a, const N: usize>(
    text: &'a [u8],
    separator: u8,
) -> Option<ArrayVec<&'a [u8], N>>
    // proved: It returns a text's parts, unless they are too many
    ensures { MatchOption result (N < length (slice_split (λ b. b == separator) text.now))
        (λ parts. map (λ w. w.now) parts.items ≡ slice_split (λ b. b == separator) text.now) }
{
    let mut parts = ArrayVec::new();
    let mut start = 0;
    'bytes: for at in 0..text.len() {
        if text[at] == separator {
            if parts.is_full() {
                return None;
            }
            parts.push(&text[start..at]);
            start = at + 1;
        }
    }
    if parts.is_full() {
        return None;
    }
    parts.push(&text[start..]);
    Some(parts)
}
