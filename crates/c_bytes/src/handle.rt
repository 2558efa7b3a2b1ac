// A handle in its 40 bytes.
ghost use Rattle.std.specs.Prelude.{◌≡◌, ◌≤◌, length};
ghost use Rattle.c_form.specs.Flat.{handle_in, handle_over};

use crate::write::put_all;
use base::Handle;
use journal_bytes::get_u64;

#[tactic(auto, unfolding(c_form::specs::Flat::handle_in))]
pub fn take_handle(src: &[u8]) -> Handle
    requires { 40 ≤ length src.now }
    ensures { result ≡ handle_in src.now }
{
    let offset = get_u64(src, 0) as usize;
    let end = get_u64(src, 8) as usize;
    let position = get_u64(src, 16) as usize;
    let count = get_u64(src, 24) as usize;
    let saved = get_u64(src, 32) as usize;
    Handle {
        offset,
        end,
        position,
        count,
        saved,
    }
}

#[tactic(auto, unfolding(c_form::specs::Flat::handle_over))]
pub fn put_handle(dst: &mut [u8], handle: Handle)
    requires { 40 ≤ length dst.old }
    ensures { dst.new ≡ handle_over handle dst.old }
{
    let numbers = [
        handle.offset as u64,
        handle.end as u64,
        handle.position as u64,
        handle.count as u64,
        handle.saved as u64,
    ];
    put_all(dst, 0, &numbers);
}
