// A line in its one spelling: the sheet is read from it, and written again.
ghost use Rattle.std.specs.Prelude.{◌≡◌, ◌*◌, ◌≤◌, length};
ghost use Rattle.panel_spelling.specs.Library.{respelt};
ghost use Rattle.panel_library.specs.Texts.{Front};

use base::Opened;
use panel_frames::put_number;
use panel_read::read_line;
use panel_spell::put_sheet;

// Writes the text of a line, which has no newline, to the front of `text`, and answers its length.
pub(crate) fn respell(line: &[u8], text: &mut [u8]) -> usize
    requires { length text.old ≡ 9735 }
    ensures { Front result text.new (respelt line.now) }
{
    let mut palette = [0u8; 765];
    let mut lab = [0.0f64; 765];
    let mut indices = [0i16; 4096];
    let answer = read_line(line, &mut palette, &mut lab, &mut indices);
    match answer {
        Opened::Sheet { w, h, k } => {
            let n = w * h;
            put_sheet(w, h, k, &palette, &indices[..n], text)
        }
        Opened::Refused(no) => put_number(text, 0, no),
    }
}
