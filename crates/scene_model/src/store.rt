//! The kinds of store.
ghost use Rattle.std.specs.Prelude.{◌≡◌};
ghost use Rattle.scene_model.specs.Stores.{store_named};

/// A layout in which the parts of a scene may lie.
#[derive(Clone, Copy, Debug, PartialEq, Eq)]
pub enum Store {
    /// A slot for each index.
    Vec,
    /// Parts without gaps, with a table of their places.
    Dense,
    /// A table of hashes.
    Hash,
    /// A tree, ascending by index.
    BTree,
}

impl Store {
    /// The store that a document means by a name: `vec`, `dense`, `hash` or `btree`.
    pub fn named(name: &str) -> Option<Store>
        ensures { result ≡ store_named name.now }
    {
        if name == "vec" {
            Some(Store::Vec)
        } else if name == "dense" {
            Some(Store::Dense)
        } else if name == "hash" {
            Some(Store::Hash)
        } else if name == "btree" {
            Some(Store::BTree)
        } else {
            None
        }
    }
}
