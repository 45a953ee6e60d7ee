//! Root places, each of which may have the index of an object.
ghost use Rattle.std.specs.Prelude.{◌≡◌, ◌<◌, IfSome, All, map};
ghost use Rattle.hm_plain.specs.Sights.{index_at};

use hm_model::Root;

/// The index at a place, if one is given and it has one.
pub(crate) fn index_at(roots: &[Option<u32>; 256], place: Option<Root>) -> Option<u32>
    requires { IfSome place (λ r. r.0 < 256) }
    ensures { result ≡ index_at roots.now place }
{
    roots[place?.0 as usize]
}

/// The same for four places.
pub(crate) fn indices_at(roots: &[Option<u32>; 256], places: [Option<Root>; 4]) -> [Option<u32>; 4]
    requires { All (λ place. IfSome place (λ r. r.0 < 256)) places }
    ensures { result ≡ map (index_at roots.now) places }
{
    let [a, b, c, d] = places;
    [
        index_at(roots, a),
        index_at(roots, b),
        index_at(roots, c),
        index_at(roots, d),
    ]
}
