//! Counts how often a byte occurs in a text.

ghost use Rattle.std.specs.Prelude.{◌≡◌, ◌==◌, ◌≤◌, length};
ghost use Rattle.std.specs.List.{filter};

// The greatest length of a part, in bytes. A count up to this length fits in a `u8`, which lets the loop count many
// bytes at once.
const PART: usize = 192;

// Counts a byte in a part of a text.
fn count_in_part(part: &[u8], wanted: u8) -> u8
    requires { length part.now ≤ 192 }
    ensures value { result ≡ length (filter (λ byte. byte == wanted) part.now) }
    ensures within { result ≤ length part.now }
{
    let mut count = 0u8;
    'bytes: for byte in part {
        count += (*byte == wanted) as u8;
    }
    count
}

/// Counts how often a byte occurs in a text.
pub(crate) fn count_of(bytes: &[u8], wanted: u8) -> usize
    ensures { result ≡ length (filter (λ byte. byte == wanted) bytes.now) }
{
    let mut count = 0;
    let mut rest = bytes;
    'parts: while rest.len() > PART {
        let (part, behind) = rest.split_at(PART);
        count += count_in_part(part, wanted) as usize;
        rest = behind;
    }
    count + count_in_part(rest, wanted) as usize
}
