//! What can be joined.
ghost use Rattle.std.specs.Prelude.{◌≡◌, ℕ, ◌+◌, ◌<◌, Bool, Option, Some, is_some, IsSome};
ghost use Rattle.hibitset_sets.specs.Walk.{words_walked};
ghost use Rattle.specs_join.specs.Joins.{join_list};
ghost use Rattle.specs_join.specs.Joining.{items_left, found};

mod absent;
pub mod and;
pub mod change;
pub mod change_each;
pub mod cursor;
pub mod iter;
pub mod laid_out;
mod living;
mod maybe;
mod nothing;
pub mod par_join;
mod parts;
mod sets;
pub mod shared;
pub mod told;
mod tuples;
mod words;

pub use absent::AntiStorage;
use hibitset::{BitSetLike, Counter, Index};
use iter::JoinIter;
pub use maybe::MaybeJoin;

/// Something with a value at some indices, which can be joined with others.
pub trait Join {
    /// An item of the join.
    type Type;

    /// What contracts see of an item.
    type Shown;

    /// What the items are looked up in.
    type Value: Drop;

    /// The mask of the indices that have an item.
    type Mask: BitSetLike + Drop;

    /// What an item shows.
    ghost show: { Self.Type → Self.Shown };

    /// What the join has at each index.
    ghost joins: { Self → ℕ → Option Self.Shown };

    /// Whether a mask is the one that the join opens.
    ghost opens: { Self → Self.Mask → Type 0 };

    /// Whether every join of this type has an item at every index.
    ghost unconstrained: { Bool };

    /// What the opened values have at each index.
    ghost value_at: { Self.Value → ℕ → Option Self.Shown };

    /// The mask of the indices that have an item, and what the items are looked up in.
    fn open(self) -> (Self::Mask, Self::Value)
    where
        Self: Sized,
        ensures opens { opens self result.0 }
        ensures mask { (index : ℕ) → index < 16777216 → Self.Mask.members result.0 index ≡ is_some (joins self index) }
        ensures values { (index : ℕ) → index < 16777216 → IsSome (joins self index)
            → value_at result.1 index ≡ joins self index };

    /// The item at an index that has one.
    fn get(values: &Self::Value, id: Index) -> Self::Type
    where
        Self: Sized,
        requires { IsSome (value_at values.now id) }
        ensures { value_at values.now id ≡ Some (show result) };

    /// Whether every join of this type has an item at every index: true of `MaybeJoin`, `()` and
    /// tuples of these alone. A walk over one goes through 16,777,216 indices.
    fn is_unconstrained() -> bool
    where
        Self: Sized,
        ensures { result ≡ unconstrained };

    /// A walk over the items, ascending by index.
    final fn join(self) -> JoinIter<Self>
    where
        Self: Sized,
        ensures items { items_left value_at result ≡ join_list (joins self) }
        ensures found { (index : ℕ) → index < 16777216
            → found Self.Mask.members value_at result index ≡ joins self index }
    {
        JoinIter::new(self)
    }

    /// The same walk, telling of the words that making it reads from the mask.
    final fn join_counted<C: Counter>(self, count: &mut C) -> JoinIter<Self>
    where
        Self: Sized,
        ensures items { items_left value_at result ≡ join_list (joins self) }
        ensures found { (index : ℕ) → index < 16777216
            → found Self.Mask.members value_at result index ≡ joins self index }
        ensures mask { opens self result.mask }
        ensures unread { Self.Mask.reads result.mask 3 + result.unread
            ≡ words_walked (Self.Mask.reads result.mask) (Self.Mask.words result.mask) }
        ensures counted { C.ticked count.old (Self.Mask.reads result.mask 3) count.new }
    {
        JoinIter::new_counted(self, count)
    }

    /// The join with an item at every index: what this one has there, or none.
    final fn maybe(self) -> MaybeJoin<Self>
    where
        Self: Sized,
        ensures { result.0 ≡ self }
    {
        MaybeJoin(self)
    }
}
