//! What names a resource: the kind of its value, and a dynamic number.
ghost use Rattle.std.specs.Prelude.{◌≡◌};
ghost use Rattle.shred_world.specs.ResourceIds.{id_of};

use crate::Resource;

/// The name of a resource, ordered by kind and then by dynamic number.
#[derive(Clone, Copy, Debug, PartialEq, Eq, PartialOrd, Ord, Hash)]
pub struct ResourceId {
    /// The kind number of the value.
    pub kind: u32,
    /// Tells resources of one kind apart; 0 where there is only one.
    pub dynamic: u64,
}

impl ResourceId {
    /// The id of a resource type, under the dynamic number 0.
    pub fn new<V, R: Resource<V>>() -> ResourceId
        ensures { result ≡ id_of R.kind_number 0 }
    {
        ResourceId::new_with_dynamic_id::<V, R>(0)
    }

    /// The id of a resource type under a dynamic number.
    pub fn new_with_dynamic_id<V, R: Resource<V>>(dynamic: u64) -> ResourceId
        ensures { result ≡ id_of R.kind_number dynamic }
    {
        ResourceId::from_type_id_and_dynamic_id(R::kind(), dynamic)
    }

    /// The id of a kind number, under the dynamic number 0.
    pub fn from_type_id(kind: u32) -> ResourceId
        ensures { result ≡ id_of kind 0 }
    {
        ResourceId::from_type_id_and_dynamic_id(kind, 0)
    }

    /// The id of a kind number and a dynamic number.
    pub fn from_type_id_and_dynamic_id(kind: u32, dynamic: u64) -> ResourceId
        ensures { result ≡ id_of kind dynamic }
    {
        ResourceId { kind, dynamic }
    }
}
