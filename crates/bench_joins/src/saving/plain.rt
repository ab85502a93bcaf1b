//! The same values in plain vectors, and their JSON made by hand.
use crate::saving::saved::goal_of;
use serde_json::{Map, Value, put};
use std::alloc::{AllocError, Global};

/// The values of entities, each kind in a vector.
#[derive(Drop)]
pub struct Plain {
    healths: Vec<i64>,
    goals: Vec<Option<i64>>,
    owners: Vec<u64>,
    markers: Vec<u64>,
}

/// The values of one.
#[derive(Clone, Copy)]
struct Entry {
    health: i64,
    goal: Option<i64>,
    owner: u64,
    marker: u64,
}

/// The JSON of a goal, a list of it or of nothing.
fn goal_value(alloc: Global, goal: Option<i64>) -> Result<Value, AllocError> {
    let mut goals = Vec::new(alloc);
    if let Some(goal) = goal {
        goals.push(Value::from(goal))?;
    }
    Ok(Value::Array(goals))
}

/// The JSON of the parts of one.
fn components_value(alloc: Global, entry: Entry) -> Result<Value, AllocError> {
    let mut components = Vec::new(alloc);
    components.push(Value::from(entry.health))?;
    components.push(goal_value(alloc, entry.goal)?)?;
    components.push(Value::from(entry.owner))?;
    Ok(Value::Array(components))
}

/// The JSON of one.
fn value_of(alloc: Global, entry: Entry) -> Result<Value, AllocError> {
    let components = components_value(alloc, entry)?;
    let mut members = Map::new(alloc);
    put(&mut members, alloc, "components", components)?;
    put(&mut members, alloc, "marker", Value::from(entry.marker))?;
    Ok(Value::Object(members))
}

/// The goal of a JSON, none of an empty list.
fn goal_in(json: &Value) -> Option<Option<i64>> {
    match json.as_array()?.as_slice().get(0) {
        Some(goal) => Some(Some(goal.as_i64()?)),
        None => Some(None),
    }
}

/// The health in a list of parts.
fn health_in(components: &[Value]) -> Option<i64> {
    components.get(0)?.as_i64()
}

/// The owner in a list of parts.
fn owner_in(components: &[Value]) -> Option<u64> {
    components.get(2)?.as_u64()
}

/// The values of the parts of a JSON and of its marker.
fn entry_in(components: &[Value], marker: u64) -> Option<Entry> {
    let goal = goal_in(components.get(1)?)?;
    Some(Entry {
        health: health_in(components)?,
        goal,
        owner: owner_in(components)?,
        marker,
    })
}

/// The values of a JSON.
fn entry_of(json: &Value) -> Option<Entry> {
    let components = json.get("components")?.as_array()?;
    entry_in(components.as_slice(), json.get("marker")?.as_u64()?)
}

/// The values of the one with that number, of so many.
fn entry_at(number: u32, count: u32) -> Entry {
    let next = number as u64 + 1;
    Entry {
        health: number as i64,
        goal: goal_of(number),
        owner: if next < count as u64 { next } else { 0 },
        marker: number as u64,
    }
}

impl Plain {
    /// No values.
    fn empty(alloc: Global) -> Plain {
        Plain {
            healths: Vec::new(alloc),
            goals: Vec::new(alloc),
            owners: Vec::new(alloc),
            markers: Vec::new(alloc),
        }
    }

    /// Puts the values of one behind the others.
    fn push(&mut self, entry: Entry) -> Result<(), AllocError> {
        self.healths.push(entry.health)?;
        self.goals.push(entry.goal)?;
        self.owners.push(entry.owner)?;
        self.markers.push(entry.marker)?;
        Ok(())
    }

    /// The values of so many, each owned by the next and the last by the first.
    pub fn new(alloc: Global, count: u32) -> Result<Plain, AllocError> {
        let mut plain = Plain::empty(alloc);
        for number in 0..count {
            plain.push(entry_at(number, count))?;
        }
        Ok(plain)
    }

    /// The JSON of all.
    pub fn value(&self, alloc: Global) -> Result<Value, AllocError> {
        let mut values = Vec::new(alloc);
        let parts = self.healths.iter().zip(self.goals.iter());
        let names = self.owners.iter().zip(self.markers.iter());
        for ((health, goal), (owner, marker)) in parts.zip(names) {
            let entry = Entry {
                health: *health,
                goal: *goal,
                owner: *owner,
                marker: *marker,
            };
            values.push(value_of(alloc, entry)?)?;
        }
        Ok(Value::Array(values))
    }

    /// The values of a JSON, as far as its items have the form.
    pub fn read(alloc: Global, json: &Value) -> Result<Plain, AllocError> {
        let mut plain = Plain::empty(alloc);
        let Some(values) = json.as_array() else {
            return Ok(plain);
        };
        for value in values {
            match entry_of(value) {
                Some(entry) => plain.push(entry)?,
                None => return Ok(plain),
            }
        }
        Ok(plain)
    }

    /// The sums of healths, of goals and of owners, which go round at 2 ^ 64.
    pub fn sums(&self) -> (i64, i64, u64) {
        (
            sum_of_healths(self.healths.as_slice()),
            sum_of_goals(self.goals.as_slice()),
            sum_of_owners(self.owners.as_slice()),
        )
    }
}

/// The sum of healths.
fn sum_of_healths(healths: &[i64]) -> i64 {
    let mut sum = 0i64;
    for health in healths {
        sum = sum.wrapping_add(*health);
    }
    sum
}

/// The sum of the goals that are there.
fn sum_of_goals(goals: &[Option<i64>]) -> i64 {
    let mut sum = 0i64;
    for goal in goals {
        sum = sum.wrapping_add(goal.unwrap_or(0));
    }
    sum
}

/// The sum of owners.
fn sum_of_owners(owners: &[u64]) -> u64 {
    let mut sum = 0u64;
    for owner in owners {
        sum = sum.wrapping_add(*owner);
    }
    sum
}
