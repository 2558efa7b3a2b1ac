// A colour as a word of four bytes, as a buffer of RGBA has it, and a buffer painted pixel by pixel (proofs/Painted).
#![tactic(auto)]

ghost use Rattle.std.specs.Prelude.{◌≡◌, [], ◌∷◌};
ghost use Rattle.journal_record.specs.Bytes.{le};

use base::Rgb;

// The alpha of a colour.
const OPAQUE: u8 = 255;

// The word of an index that shows nothing.
pub const CLEAR: u32 = 0;

// A colour and its alpha as one number, the red byte lowest.
#[tactic(auto, unfolding(journal_record::specs::Bytes::le))]
pub fn word(c: Rgb) -> u32
    ensures { le 4 result ≡ c.r ∷ c.g ∷ c.b ∷ 255 ∷ [] }
{
    u32::from_le_bytes([c.r, c.g, c.b, OPAQUE])
}
