//! The parts that are changed, in storages and in plain vectors.
use specs_layouts::{Component, DenseVecStorage, FlaggedStorage, MaskedStorage, TryDefault};
use std::alloc::{AllocError, Global};

/// Where an entity is.
#[derive(Drop)]
pub struct Place {
    pub along: u32,
}

impl Component for Place {
    type Storage = DenseVecStorage<Place>;
}

/// How far an entity drifts.
#[derive(Drop)]
pub struct Drift {
    pub along: u32,
}

impl Component for Drift {
    type Storage = DenseVecStorage<Drift>;
}

/// A place whose changes are told.
#[derive(Drop)]
pub struct Told {
    pub along: u32,
}

impl Component for Told {
    type Storage = FlaggedStorage<Told>;
}

/// A part that is made of a number.
pub trait Made: Component {
    fn made(number: u32) -> Self;
}

impl Made for Place {
    fn made(number: u32) -> Place {
        Place { along: number }
    }
}

impl Made for Drift {
    fn made(number: u32) -> Drift {
        Drift { along: number }
    }
}

impl Made for Told {
    fn made(number: u32) -> Told {
        Told { along: number }
    }
}

/// A storage without parts.
///
/// Errors: `AllocError`, also where the layout has no default.
pub fn empty<C: Component>(alloc: Global) -> Result<MaskedStorage<C>, AllocError> {
    match C::Storage::try_default(alloc) {
        Ok(inner) => Ok(MaskedStorage::new(alloc, inner)),
        Err(_) => Err(AllocError),
    }
}

/// Places at each index below an end, and drifts at every so manieth of them.
#[derive(Drop)]
pub struct Scene {
    pub places: MaskedStorage<Place>,
    pub drifts: MaskedStorage<Drift>,
    pub end: u32,
}

/// The same in plain vectors.
#[derive(Drop)]
pub struct Plain {
    pub places: Vec<Option<u32>>,
    pub drifts: Vec<Option<u32>>,
}

/// A storage with a part at every `step`-th index below `end`.
///
/// Errors: `AllocError`.
pub fn filled<C: Made>(alloc: Global, end: u32, step: u32) -> Result<MaskedStorage<C>, AllocError> {
    let mut storage = empty(alloc)?;
    fill(&mut storage, end, step)?;
    Ok(storage)
}

/// Puts a part at every `step`-th index below `end`.
///
/// Errors: `AllocError`, and the parts before are in.
pub fn fill<C: Made>(
    storage: &mut MaskedStorage<C>,
    end: u32,
    step: u32,
) -> Result<(), AllocError> {
    for id in 0..end {
        if step != 0 && id % step == 0 && id < 16_777_216 {
            if storage.insert(id, C::made(id)).is_err() {
                return Err(AllocError);
            }
        }
    }
    Ok(())
}

/// Places at each index below `end`, and drifts at every `step`-th.
///
/// Errors: `AllocError`.
pub fn make_scene(alloc: Global, end: u32, step: u32) -> Result<Scene, AllocError> {
    let places = filled(alloc, end, 1)?;
    let drifts = filled(alloc, end, step)?;
    Ok(Scene {
        places,
        drifts,
        end,
    })
}

/// The same in plain vectors.
///
/// Errors: `AllocError`.
pub fn make_plain(alloc: Global, end: u32, step: u32) -> Result<Plain, AllocError> {
    let mut places = Vec::new(alloc);
    let mut drifts = Vec::new(alloc);
    for id in 0..end {
        places.push(Some(id))?;
        drifts.push(if step != 0 && id % step == 0 {
            Some(id)
        } else {
            None
        })?;
    }
    Ok(Plain { places, drifts })
}

/// A sum over the places in the order of their indices, which goes round at 2 ^ 64.
pub fn sum_of(scene: &Scene) -> u64 {
    let mut sum = 0u64;
    for id in 0..scene.end {
        if scene.places.contains(id) {
            let along = u64::from(scene.places.get(id).along);
            sum = sum.wrapping_mul(31).wrapping_add(along);
        }
    }
    sum
}

/// The same of plain places.
pub fn sum_of_plain(plain: &Plain) -> u64 {
    let mut sum = 0u64;
    for place in &plain.places {
        if let Some(along) = place {
            sum = sum.wrapping_mul(31).wrapping_add(u64::from(*along));
        }
    }
    sum
}
