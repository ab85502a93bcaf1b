//! A queue that is filled to its full, and a command past it.
use scene::{Command, NotQueued, Queue};
use std::alloc::Global;

/// How many commands a queue holds.
const ROOM: u64 = 1_048_576;

/// Whether a queue takes in as many deaths as it holds, hands the next one back, and then holds those that it took in.
fn is_filled(alloc: Global) -> bool {
    let mut queue: Queue<u64> = Queue::new(alloc);
    for id in 0..ROOM {
        if queue.push(Command::Kill(id)).is_err() {
            return false;
        }
    }
    let is_handed_back = match queue.push(Command::Kill(ROOM)) {
        Err(NotQueued::Full(Command::Kill(id))) => id == ROOM,
        Err(_) => false,
        Ok(()) => false,
    };
    is_handed_back && queue.len() == 1_048_576
}

#[test]
fn a_queue_is_filled_and_refuses_one_more(rt: HostRuntime) {
    assert!(rt; is_filled(rt.alloc()));
}
