// Document 01's program: reads frames from standard input, one a line, and prints a line for each.
#![tactic(auto)]

fn main(rt: HostRuntime) {
    panel_console::run(&mut rt.stdin(), &mut rt.stdout());
}
