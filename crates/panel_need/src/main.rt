// How much journal sessions need, for product staff at a shell (change request E11). On standard input a session is an
// opening line and frames, as `panel` reads them, and an empty line stands between two sessions. On standard output each
// session has the bytes of journal that it needs, in decimal, in either form, or the number that refuses it.
#![tactic(auto)]

mod session;

ghost use Rattle.std.specs.Prelude.{◌≤◌, ◌<◌, length, take, IfOk};
ghost use Rattle.std.specs.Io.KnownBytes.{Consumes, IsAtEnd};

use std::io;
use std::io::Read;

// Bytes of input that are held, one more than are read.
const TEXT: usize = 262_144;

// Reads until the text is full or the input ends: how many bytes stand at its front then.
fn read_full<R: Read>(input: &mut R, text: &mut [u8]) -> io::Result<usize>
    ensures bound { IfOk result (λ n. n ≤ length text.new) }
    ensures bytes { IfOk result (λ n. Consumes (R.remaining input.old) (R.remaining input.new) (take n text.new)) }
    ensures end { IfOk result (λ n. n < length text.new → IsAtEnd (R.remaining input.new)) }
{
    let mut n = 0;
    while n < text.len() {
        let got = input.read(&mut text[n..])?;
        if got == 0 {
            break;
        }
        n += got;
    }
    Ok(n)
}

fn main(rt: HostRuntime) -> io::Result<()> {
    let mut text = [0u8; TEXT];
    let n = read_full(&mut rt.stdin(), &mut text)?;
    if n == TEXT {
        return println!(rt; "too long");
    }
    session::answer_all(&rt, &text[..n])
}
