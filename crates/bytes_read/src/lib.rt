// Layer 3, bytes_read: what the calls on records and tag lists share, that is marks and numbers in bytes.
#![tactic(auto)]

ghost use Rattle.std.specs.Prelude.{◌≡◌, ◌+◌, get_or, slice_index};
ghost use Rattle.bytes_read.specs.Bytes.{number_at, marked};

// The byte at a place, 0 outside.
pub fn byte_at(bytes: &[u8], at: usize) -> u8
    ensures { result ≡ get_or bytes.now at 0 }
{
    bytes.get(at).copied().unwrap_or(0)
}

// The byte after a place, 0 outside. Every place may be handed in, the greatest one too. Where the byte at the place is known to be there, the test of the place
// costs nothing; a saturating sum would.
pub fn byte_after(bytes: &[u8], at: usize) -> u8
    ensures { result ≡ get_or bytes.now (at + 1) 0 }
{
    if at < bytes.len() {
        byte_at(bytes, at + 1)
    } else {
        0
    }
}

// The number at a place, low byte first.
pub fn number_at(bytes: &[u8], at: usize) -> u16
    ensures { result ≡ number_at bytes.now at }
{
    u16::from_le_bytes([byte_at(bytes, at), byte_after(bytes, at)])
}

// Whether a place has this mark.
#[tactic(auto, unfolding(crate::specs::Bytes::marked))]
pub fn is_marked(bytes: &[u8], at: usize, mark: &[u8; 2]) -> bool
    ensures { result ≡ marked bytes.now at (slice_index mark.now 0) (slice_index mark.now 1) }
{
    byte_at(bytes, at) == mark[0] && byte_after(bytes, at) == mark[1]
}
