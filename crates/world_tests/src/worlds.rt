//! Stories of worlds, with queues of jobs and without.
use specs::{EntitiesRes, Error};
use std::alloc::Global;
use world_cases::histories::{Call, die_for_good};
use world_cases::lazy::asking::are_given;
use world_cases::lazy::building::three_built;
use world_cases::lazy::stories as lazy;
use world_cases::lazy::tasks::Health;
use world_cases::stories::{STORIES, holds};

/// The entity that died, and the one that stands for its index after some calls.
fn last_at_the_index(alloc: Global) -> Result<[(u32, i32); 2], Error> {
    let mut entities = EntitiesRes::new(alloc);
    let calls = [
        Call::Allocates,
        Call::Kills(0),
        Call::Creates,
        Call::Deletes(0),
        Call::Merges,
        Call::CreatesRow(2),
    ];
    let dead = die_for_good(&mut entities, &calls)?;
    let last = entities.entity(dead.id());
    Ok([
        (dead.id(), dead.generation().id()),
        (last.id(), last.generation().id()),
    ])
}

#[test]
fn stories_are_as_they_should_be(rt: HostRuntime) {
    // The last story that isn't as it should be, and whether it was refused.
    let mut wrong = None;
    for story in STORIES {
        match holds(rt.alloc(), story) {
            Ok(true) => {}
            outcome => wrong = Some((story, outcome.is_err())),
        }
    }
    assert_eq!(rt; wrong, None);
}

#[test]
fn stories_with_queues_are_as_they_should_be(rt: HostRuntime) {
    let mut wrong = None;
    for story in lazy::STORIES {
        match lazy::holds(&rt, story) {
            Ok(true) => {}
            outcome => wrong = Some((story, outcome.is_err())),
        }
    }
    assert_eq!(rt; wrong, None);
}

#[test]
fn two_of_three_healths_are_left(rt: HostRuntime) {
    let are_left = match three_built(&rt) {
        Ok(list) => list.as_slice() == [Health(1), Health(3)].as_slice(),
        Err(_) => false,
    };
    assert_eq!(rt; are_left, true);
}

#[test]
fn systems_ask_under_their_own_numbers(rt: HostRuntime) {
    assert_eq!(rt; are_given(&rt), Ok(true));
}

#[test]
fn the_index_of_a_dead_entity_is_given_again(rt: HostRuntime) {
    assert_eq!(rt; last_at_the_index(rt.alloc()).ok(), Some([(0, 1), (0, 4)]));
}
