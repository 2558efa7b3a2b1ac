// The flat form of a sheet, of a handle and of a list of changes in byte buffers (document 02, E12): definitions and
// laws, no code. specs/Flat.antt has the layout. The crate c_bytes reads and writes it.
#![tactic(auto)]
