// Number 3: LAB numbers that are not finite.
ghost use Rattle.std.specs.Prelude.{◌≡◌};
ghost use Rattle.base.specs.Lists.{some};
ghost use Rattle.color_doubles.specs.Finite.{unfit, unfit_triple};

use base::{Lab, either};

// An infinity or a NaN: what is finite gives 0 when it is taken from itself.
pub fn is_unfit(x: f64) -> bool
    ensures { result ≡ unfit x }
{
    x - x != 0.0
}

// Whether some number of the list is not finite. There is no early exit, so that the scan is compiled to
// vector code.
pub fn any_unfit(lab: &[f64]) -> bool
    ensures { result ≡ some unfit lab.now }
{
    let mut bad = false;
    for x in lab {
        bad = either(bad, is_unfit(*x));
    }
    bad
}

// Whether one of the three numbers is not finite.
pub fn unfit_triple(p: Lab) -> bool
    ensures { result ≡ unfit_triple p }
{
    either(either(is_unfit(p.l), is_unfit(p.a)), is_unfit(p.b))
}
