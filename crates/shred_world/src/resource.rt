//! What ties a type of resources to a kind of values.
ghost use Rattle.std.specs.Prelude.{◌≡◌, ℕ, Option, Some, None, IfOk, IfErr, OnErr, option_copied};
ghost use Rattle.std.specs.Option.{option_copied_mut};
ghost use Rattle.std.specs.Borrow.{LendsIf, sem};

/// A type whose values are resources of a world over `V`.
///
/// `V` is mostly an enum with one variant a resource type. The kind number tells the variant, and no two resource
/// types of one `V` have the same.
pub trait Resource<V>: Sized {
    /// The kind number.
    ghost kind_number: { ℕ };

    /// The value that holds the resource.
    ghost wrapped: { Self → V };

    /// The resource that a value holds, which is there exactly where the value is of this kind.
    ghost part: { V → Option Self };

    /// The kind number.
    fn kind() -> u32
        ensures { result ≡ kind_number };

    /// Makes the value that holds the resource.
    fn wrap(self) -> V
        ensures { result ≡ wrapped self };

    /// Takes the resource out of the value, or hands back a value of another kind.
    fn unwrap(value: V) -> Result<Self, V>
        ensures ok { IfOk result (λ resource. part value ≡ Some resource) }
        ensures other_kind { OnErr result (part value ≡ None) }
        ensures handed_back { IfErr result (λ refused. refused ≡ value) };

    /// The resource in the value.
    fn view(value: &V) -> Option<&Self>
        ensures { option_copied result ≡ part value.now };

    /// The resource in the value, for writing: the value keeps its kind.
    fn view_mut(value: &mut V) -> Option<&mut Self>
        ensures* writes_back { sem 𝓛 (LendsIf V.row Self.row value.entry result wrapped value.old) }
        ensures value { option_copied_mut result ≡ part value.old };

    /// What was wrapped is seen again.
    ghost seen: { (resource : Self) → part (wrapped resource) ≡ Some resource };

    /// A value in which a resource is seen is that resource, wrapped.
    ghost only_wrapped: { (value : V) (resource : Self) → part value ≡ Some resource → value ≡ wrapped resource };
}
