//! The parts, the systems and what a system adds.

/// The kind of parts that are a reference to the entity with which the holder dies.
pub const BOND: &str = "bond";

/// The kind of parts that are an entity's health.
pub const HP: &str = "hp";

/// The kind of parts that are a reference to the entity that owns the holder.
pub const OWNER: &str = "owner";

/// The kind of parts that are a place.
pub const POS: &str = "pos";

/// The kind of parts that are a speed.
pub const VEL: &str = "vel";

/// The global by which `pull` changes each speed.
pub const G: &str = "g";

/// A part: a whole number, or a reference.
#[derive(Clone, Copy, Debug, PartialEq, Eq)]
pub enum Datum {
    /// The number of a `hp`, a `pos` or a `vel`.
    Whole(i64),
    /// The id that a `bond` or an `owner` refers to.
    Owner(u64),
}

/// A system of the program's rules. Its configuration is always null.
#[derive(Clone, Copy, Debug, PartialEq, Eq)]
pub enum BasicSystem {
    /// `drift`: pos gains vel where both are.
    Drift,
    /// `pull`: vel gains g.
    Pull,
    /// `decay`: hp loses 1.
    Decay,
    /// `reap`: each entity with hp at most 0 dies.
    Reap,
    /// `bud`: each entity with hp at least 10 and a pos has an offspring with hp 1 there.
    Bud,
}

/// What a system asks for in its turn, for each entity.
#[derive(Clone, Copy)]
pub enum Ask {
    /// Its death, where its hp is at most 0.
    Deaths,
    /// A birth at its pos with hp 1, where its hp is at least 10.
    Births,
}

/// What the number of an entity gains in a system's turn.
#[derive(Clone, Copy)]
pub enum Gain {
    /// The number that the entity has under this kind, if it has one.
    Under(&'static str),
    /// The same for each entity, if anything.
    Each(Option<i64>),
}
