use rcu_script::RunFault;
use rcu_seq::Fault;
use std::alloc::Global;
use std::process::Abort;

/// Compares the text that a fault prints as.
fn prints(rt: &impl Abort, alloc: Global, fault: &RunFault, line: &str) {
    let text = match format!(in alloc; "{fault}") {
        Ok(text) => text,
        Err(_) => format!(in alloc; "{fault}").expect(rt, "memory for a line"),
    };
    assert_eq!(rt; text.as_str(), line);
}

/// Faults, and the texts that they print as.
static LINES: [(RunFault, &str); 3] = [
    (RunFault::Open(Fault::TooManyCpus), "fault 17"),
    (RunFault::Read, "rcu: read failed"),
    (RunFault::Write, "rcu: write failed"),
];

#[test]
fn a_fault_prints_its_line(rt: HostRuntime) {
    for (fault, line) in &LINES {
        prints(&rt, rt.alloc(), fault, line);
    }
}
