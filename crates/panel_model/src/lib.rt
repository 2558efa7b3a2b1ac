// What a frame of `panel` asks of a history: specs/ has the definitions, in either form and with scratch of any length,
// proofs/ their laws. No code.
#![tactic(auto)]

use base::Edit;

// What a frame asks for: an edit with the first n changes of a list, another call, or nothing, where a number refuses it.
#[derive(Clone, Copy)]
pub enum Asked {
    Push { edit: Edit, n: usize },
    Undo,
    Redo,
    Mark,
    Refused(u8),
}
