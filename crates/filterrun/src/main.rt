// The program `filterrun`: runs the job that stands on its standard input.
#![tactic(auto)]

fn main(rt: HostRuntime) {
    runner::run_stdin(&mut rt.stdin(), &mut rt.stdout(), &mut rt.stderr());
}
