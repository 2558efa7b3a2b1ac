// Standard input and output of `panel`: what the answer of a read or a write means, and a text written to its end.
#![tactic(auto)]

ghost use Rattle.std.specs.Prelude.{◌≡◌, true, false, ◌+◌, ◌≤◌, length, take, drop, Ok, IfOk, IfErr, ◌<◌, ◌↔◌, ◌⊎◌};
ghost use Rattle.std.specs.IoError.{error_kind};
ghost use Rattle.std.specs.Io.KnownBytes.{Appends};
ghost use Rattle.panel_streams.specs.Sends.{Sends, moved};

use std::io;
use std::io::{ErrorKind, Write};
use std::thread::yield_now;

// Bytes that a read asks for.
pub const CHUNK: usize = 4_096;

// What was written: how many bytes were taken, by how many calls of write, and whether to go on.
#[derive(Clone, Copy)]
pub struct Sent {
    pub n: usize,
    pub calls: u64,
    pub more: bool,
}

// Whether to call again after a read or a write that answered `got`: it moved something, or failed for the moment only,
// since a signal came first or a stream that does not block was not ready. Then others get their turn first.
pub fn goes_on(got: &io::Result<usize>) -> bool
    ensures nothing { got.now ≡ Ok 0 → result ≡ false }
    ensures moved { IfOk got.now (λ n. 0 < n → result ≡ true) }
    ensures failed { IfErr got.now (λ e. (result ≡ true) ↔ ((error_kind e ≡ ErrorKind.Interrupted) ⊎ (error_kind e ≡ ErrorKind.WouldBlock))) }
{
    let error = match got {
        Ok(n) => return 0 < *n,
        Err(e) => e.kind(),
    };
    if error == ErrorKind::WouldBlock {
        yield_now();
        return true;
    }
    error == ErrorKind::Interrupted
}

// Whether a read that brought nothing did not fail: it is to be made again, or the input has ended.
pub fn is_sound(got: &io::Result<usize>, more: bool) -> bool
    ensures value { more ≡ true → result ≡ true }
    ensures got_value { more ≡ false → result ≡ true → got.now ≡ Ok 0 }
    ensures ended { got.now ≡ Ok 0 → result ≡ true }
{
    if more {
        return true;
    }
    matches!(got, Ok(0))
}

// How many bytes a read or a write moved: none where it failed.
pub fn count(got: &io::Result<usize>) -> usize
    ensures { result ≡ moved got.now }
{
    match got {
        Ok(n) => *n,
        Err(_) => 0,
    }
}

// One write of the text's bytes from `from` on.
fn send_some<W: Write>(to: &mut W, text: &[u8], from: usize) -> Sent
    requires { from ≤ length text.now }
    ensures bound { from + result.n ≤ length text.now }
    ensures bytes { Appends (W.contents to.old) (W.contents to.new) (take result.n (drop from text.now)) }
{
    let rest = &text[from..];
    let got = to.write(rest);
    let n = count(&got);
    let more = goes_on(&got);
    Sent { n, calls: 1, more }
}

// Writes the text, to its end or until a write fails for good. A proved loop has to end: it counts its writes, up to a
// number that no run reaches.
#[tactic(auto, using(crate::proofs::Written::none_written, crate::proofs::Written::more_written))]
pub fn send<W: Write>(to: &mut W, text: &[u8]) -> Sent
    ensures sends { Sends result (length text.now) }
    ensures tried { result.more ≡ false → 0 < result.calls }
    ensures bytes { Appends (W.contents to.old) (W.contents to.new) (take result.n text.now) }
{
    let mut n = 0;
    let mut calls = 0;
    for _ in 0..u64::MAX {
        if n == text.len() {
            break;
        }
        let s = send_some(to, text, n);
        n += s.n;
        calls += 1;
        if !s.more {
            return Sent {
                n,
                calls,
                more: false,
            };
        }
    }
    Sent {
        n,
        calls,
        more: true,
    }
}
