// What loops over lists share: a definition, the laws of scans, and the tests that keep a scan free of branches.
ghost use Rattle.std.specs.Prelude.{◌≡◌, ◌||◌, ◌&&◌};

// Whether one of the two holds. Both are computed: a scan that joins its tests by this has no early
// exit, and is compiled to vector code.
pub fn either(a: bool, b: bool) -> bool
    ensures { result ≡ a || b }
{
    a || b
}

// Whether both hold. Both are computed.
pub fn both(a: bool, b: bool) -> bool
    ensures { result ≡ a && b }
{
    a && b
}
