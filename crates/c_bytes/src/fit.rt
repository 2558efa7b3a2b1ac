// 28: whether buffers are no flat sheet, and no handle.
ghost use Rattle.std.specs.Prelude.{◌≡◌, ◌+◌, ◌≤◌, ◌<◌, ltb, length};
ghost use Rattle.base.specs.Lists.{some};
ghost use Rattle.journal_record.specs.Bytes.{le_at};
ghost use Rattle.c_form.specs.Flat.{sheet_misfits, handle_misfits};

use base::either;
use journal_bytes::get_u16;

// Whether a byte is neither 0 nor 1.
fn any_over_one(bytes: &[u8]) -> bool
    ensures { result ≡ some (ltb 1) bytes.now }
{
    let mut bad = false;
    for byte in bytes {
        bad = either(bad, 1 < *byte);
    }
    bad
}

// The number in the 2 bytes from `at` on.
pub fn pair_at(src: &[u8], at: usize) -> usize
    requires { at + 2 ≤ length src.now }
    ensures { (result ≡ le_at 2 src.now at) × (result < 65536) }
{
    get_u16(src, at) as usize
}

// Whether the length does not suit w and h, or a lock byte is no mark.
pub fn sheet_misfits(src: &[u8]) -> bool
    ensures { result ≡ sheet_misfits src.now }
{
    if src.len() < 7146 {
        return true;
    }
    let places = pair_at(src, 0) * pair_at(src, 2);
    if src.len() != 7146 + 2 * places {
        return true;
    }
    any_over_one(&src[6891 + 2 * places..7146 + 2 * places])
}

#[tactic(auto, unfolding(c_form::specs::Flat::handle_misfits))]
pub fn handle_misfits(src: &[u8]) -> bool
    ensures { result ≡ handle_misfits src.now }
{
    src.len() != 40
}
