//! Hashes of entities: those of equal entities are one, and those of two generations of an index are two.
use specs_entity::{EntitiesRes, Entity, Error};
use std::alloc::Global;
use std::hash::{DefaultHasher, FoldHasher, Hash, Hasher};

/// The hash of an entity.
fn hash<H: Hasher + Default + Drop>(entity: Entity) -> u64 {
    let mut state = H::default();
    entity.hash(&mut state);
    state.finish()
}

/// An entity that died, the one that was born at its index then, and one at another index.
fn entities(alloc: Global) -> Result<[Entity; 4], Error> {
    let mut entities = EntitiesRes::new(alloc);
    let dead = entities.allocate()?;
    entities.kill(&[dead])?;
    let born = entities.allocate()?;
    let other = entities.allocate()?;
    Ok([dead, born, entities.entity(0), other])
}

/// Whether the dead entity and the one that was born at its index have different hashes, the one that was born and the one
/// that stands for the index the same, and the ones at two indices different ones.
fn compared<H: Hasher + Default + Drop>(list: &[Entity; 4]) -> [bool; 3] {
    let [dead, born, found, other] = list.map(|entity: Entity| hash::<H>(entity));
    [dead != born, born == found, born != other]
}

#[test]
fn the_hash_of_an_entity_has_its_generation(rt: HostRuntime) {
    let list = entities(rt.alloc()).ok();
    let told = list.map(|list| [
        compared::<DefaultHasher>(&list),
        compared::<FoldHasher>(&list),
    ]);
    assert_eq!(rt; told, Some([[true; 3]; 2]));
}
