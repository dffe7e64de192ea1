// The page program: a job on standard input, its page on standard output; a refusal prints the listing's one line. 02, No. 3.
#![tactic(auto)]

use console::Program;

// The program `listing` has a `main` like it: what both share is `Program::print`, and each names what is its own.
fn main(rt: HostRuntime) {
    let page = Program {
        name: "page",
        paged: true,
    };
    page.print(&rt, &mut rt.stdin(), &mut rt.stderr());
}
