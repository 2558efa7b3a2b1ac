// No code: specs/ has what pastes and moves do, proofs/ the laws and examples of it. The code is tool_block, tool_paste
// and tool_move.
#![tactic(auto)]

// Of one axis of a rectangle that is moved: the first place that lands on the sheet, where it lands, and how many
// land.
#[derive(Clone, Copy)]
pub struct Landing {
    pub from: usize,
    pub to: usize,
    pub count: usize,
}
