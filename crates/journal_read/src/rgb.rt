// A colour in the journal's bytes.
ghost use Rattle.std.specs.Prelude.{◌≡◌, ◌+◌, ◌≤◌, length};
ghost use Rattle.journal_record.specs.Record.{rgb_in};

use base::Rgb;

// The colour in the 3 bytes from `at` on.
#[tactic(auto, unfolding(journal_record::specs::Record::rgb_in))]
pub fn get_rgb(journal: &[u8], at: usize) -> Rgb
    requires { at + 3 ≤ length journal.now }
    ensures { result ≡ rgb_in journal.now at }
{
    Rgb {
        r: journal[at],
        g: journal[at + 1],
        b: journal[at + 2],
    }
}
