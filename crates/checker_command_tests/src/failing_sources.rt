//! Sources whose calls fail, one after the other: until a run meets no failure, each ends as a fault of reading and writes nothing.
use crate::answers::{check_names, checked, held};
use command_base::Status;
use emit_command::emit;
use example_files::{Answer, answer_of, plan_names, square};
use file_access::MemorySource;
use simulate_command::{SimulateNames, simulate};
use std::alloc::Global;
use std::process::Abort;

/// More calls than any of these runs makes.
const MANY: u64 = 100;

/// A source with the files of the square network and its plan, whose call of this number fails.
fn failing_at(rt: &impl Abort, alloc: Global, call: u64) -> MemorySource {
    held(rt, alloc, &square::update(), square::plan(), call)
}

/// Whether a run failed at reading, without a text.
fn is_read_fault(answer: &Answer) -> bool {
    answer.is(Status::ReadFault, b"")
}

#[test]
fn each_call_of_check_may_fail(rt: HostRuntime) {
    let alloc = rt.alloc();
    let mut failed = 0_u64;
    for call in 1..MANY {
        let answer = checked(&rt, alloc, &square::update(), square::plan(), call);
        if answer.is(Status::Done, b"accepted: ordered, 2 rounds, 12 classes\n") {
            failed = call;
            break;
        }
        assert!(rt; is_read_fault(&answer), "{call}");
    }
    // Five files, each of which is selected and taken.
    assert!(rt; failed > 10, "{failed}");
}

#[test]
fn each_call_of_emit_may_fail(rt: HostRuntime) {
    let alloc = rt.alloc();
    let mut failed = 0_u64;
    for call in 1..MANY {
        let mut source = failing_at(&rt, alloc, call);
        let answer = answer_of(alloc, emit(alloc, &mut source, &plan_names()));
        if answer.status == Status::Done {
            failed = call;
            break;
        }
        assert!(rt; is_read_fault(&answer), "{call}");
    }
    assert!(rt; failed > 4, "{failed}");
}

#[test]
fn each_call_of_simulate_may_fail(rt: HostRuntime) {
    let alloc = rt.alloc();
    let names = SimulateNames {
        check: check_names(),
        start: 0,
        count: 2,
    };
    let mut failed = 0_u64;
    for call in 1..MANY {
        let mut source = failing_at(&rt, alloc, call);
        let answer = answer_of(alloc, simulate(alloc, &mut source, &names));
        if answer.status == Status::Done {
            failed = call;
            break;
        }
        assert!(rt; is_read_fault(&answer), "{call}");
    }
    assert!(rt; failed > 10, "{failed}");
}
