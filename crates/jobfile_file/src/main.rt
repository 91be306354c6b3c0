// The program `jobfile` again, so that the gate runs it with other arguments: a crate has one list of them.
#![tactic(auto)]

fn main(rt: HostRuntime) {
    commands::jobfile::run_arguments(&rt, &mut rt.stdin(), &mut rt.stdout(), &mut rt.stderr());
}
