// Whether an object has a marker.
ghost use Rattle.std.specs.Prelude.{◌≡◌, ◌||◌, false, IsTrue};
ghost use Rattle.qc_rt.specs.JsonKinds.{has_name};
ghost use Rattle.qc_rt.specs.Seen.{has_marker};

use qc_data::Members;

// Whether some name is a marker. Of most objects the first name tells it, since all markers come before it.
pub(crate) fn has_marker(members: &Members) -> bool
    ensures { result ≡ has_marker members.now }
{
    !begins_behind(members) && seeks_marker(members)
}

// Whether all names come after the last marker.
fn begins_behind(members: &Members) -> bool
    ensures { IsTrue result → has_marker members.now ≡ false }
{
    let pairs = members.as_slice();
    pairs.is_empty() || "$right" < pairs[0].0.as_str()
}

// Whether one of the markers is there.
#[tactic(auto, using(qc_rt::proofs::Markers::marker_found))]
fn seeks_marker(members: &Members) -> bool
    ensures { result ≡ has_marker members.now }
{
    has_either(members, "$left", "$right") || has_either(members, "$class", "$data")
}

// Whether one of two names is there.
fn has_either(members: &Members, first: &str, second: &str) -> bool
    ensures { result ≡ (has_name first.now members.now || has_name second.now members.now) }
{
    has_name(members, first) || has_name(members, second)
}

// Whether the name is there.
fn has_name(members: &Members, name: &str) -> bool
    ensures { result ≡ has_name name.now members.now }
{
    members.get(name).is_some()
}
