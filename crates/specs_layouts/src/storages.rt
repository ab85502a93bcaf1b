//! The layouts of storages.
pub mod btree;
pub mod default_vec;
pub mod dense_vec;
pub mod hash_map;
pub mod null;
pub mod vec;

pub use btree::BTreeStorage;
pub use default_vec::DefaultVecStorage;
pub use dense_vec::DenseVecStorage;
pub use hash_map::HashMapStorage;
pub use null::{NullStorage, Single};
pub use vec::VecStorage;
