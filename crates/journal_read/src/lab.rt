// A LAB in the bytes of a record.
ghost use Rattle.std.specs.Prelude.{◌≡◌, ◌+◌, ◌≤◌, length};
ghost use Rattle.color_doubles.specs.Finite.{unfit_triple};
ghost use Rattle.journal_record.specs.Record.{double_in, lab_in};
ghost use Rattle.journal_read.specs.LabRead.{double_of};

use base::Lab;
use color_doubles::unfit_triple;
use journal_bytes::get_f64;
use journal_record::Real;

// The number, or a NaN of the machine's: the bits of the record's own are not told.
fn double_of(x: Real) -> f64
    ensures { result ≡ double_of x }
{
    match x {
        Real::Number(v) => v,
        Real::NotANumber => 0.0 / 0.0,
    }
}

// The double in the 8 bytes from `at` on.
pub fn double_in(journal: &[u8], at: usize) -> f64
    requires { at + 8 ≤ length journal.now }
    ensures { result ≡ double_in journal.now at }
{
    double_of(get_f64(journal, at))
}

// The LAB in the 24 bytes from `at` on, bit by bit where it is finite.
#[tactic(auto, unfolding(journal_record::specs::Record::lab_in))]
pub fn lab_in(journal: &[u8], at: usize) -> Lab
    requires { at + 24 ≤ length journal.now }
    ensures { result ≡ lab_in journal.now at }
{
    let l = double_in(journal, at);
    let a = double_in(journal, at + 8);
    let b = double_in(journal, at + 16);
    Lab { l, a, b }
}

// Whether a number of the LAB from `at` on is not finite.
pub fn unfit_lab_in(journal: &[u8], at: usize) -> bool
    requires { at + 24 ≤ length journal.now }
    ensures { result ≡ unfit_triple (lab_in journal.now at) }
{
    unfit_triple(lab_in(journal, at))
}
