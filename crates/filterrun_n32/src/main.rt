// The program `filterrun` again, so that the gate runs it on a job of many steps, examples/n32.job: a crate has one standard input.
#![tactic(auto)]

fn main(rt: HostRuntime) {
    runner::run_stdin(&mut rt.stdin(), &mut rt.stdout(), &mut rt.stderr());
}
