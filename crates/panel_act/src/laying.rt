// A frame's changes, laid out for `act`.
ghost use Rattle.std.specs.Prelude.{◌≡◌, ◌≤◌, length};
ghost use Rattle.panel_frames.specs.Reading.{size_of};
ghost use Rattle.panel_model.specs.Acts.{Brought};

use panel_frames::{Frame, take_changes};

// Lays the changes of a pixel frame to the front of the list. Any other frame brings none.
pub fn lay_changes(frame: Frame, bytes: &[u8], list: &mut [u64])
    requires { (size_of frame ≤ length bytes.now) × (length bytes.now ≡ 8192) × (length list.old ≡ 4096) }
    ensures { Brought frame bytes.now list.new }
{
    if let Frame::Pixels { tool: _, n } = frame {
        take_changes(bytes, n, list);
    }
}
