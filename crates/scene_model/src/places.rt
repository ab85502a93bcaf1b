//! Where a name stands among names.
ghost use Rattle.std.specs.Prelude.{◌≡◌, ◌<◌, length, map, IfSome};
ghost use Rattle.std.specs.Str.{bytes_eq};
ghost use Rattle.std.specs.List.{position_from};
ghost use Rattle.scene_model.specs.Parts.{place_of};

/// The first place of a name in a list of names.
pub fn place_in(names: &[&'static str], name: &str) -> Option<usize>
    ensures place { result ≡ place_of name.now (map (λ other. other.now) names.now) }
    ensures bound { IfSome result (λ place. place < length names.now) }
{
    place_among(names, name)
}

fn place_among(names: &[&'static str], name: &str) -> Option<usize>
    ensures place { result ≡ position_from (λ other. bytes_eq other.now name.now) 0 names.now }
    ensures bound { IfSome result (λ place. place < length names.now) }
{
    names.iter().position(|other| *other == name)
}
