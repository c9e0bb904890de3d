// What holds of every JSON tree that code holds.
ghost use Rattle.std.specs.Prelude.{IsTrue, map, ◌&&◌};
ghost use Rattle.qc_data.specs.Facts.{all_true, all_values, rise};
ghost use Rattle.qc_containers.specs.Rising.{on_value};
ghost use Rattle.qc_schema.specs.inner.Sound.{sound};

use qc_data::{Json, Jsons, Members};

// Each tree that code holds has integers of 64 bits and names that rise. It walks the tree and answers nothing.
#[cycle(soundness)]
pub(crate) fn check_sound(j: &Json)
    ensures { IsTrue (sound j.now) }
{
    match j {
        Json::Null => {}
        Json::Bool(_) => {}
        Json::Int(n) => {
            let _n = *n;
        }
        Json::Text(_) => {}
        Json::Array(items) => check_items(items),
        Json::Object(members) => check_members(members),
    }
}

// The same of each item.
#[cycle(soundness)]
fn check_items(items: &Jsons)
    ensures { IsTrue (all_true (map sound items.now)) }
{
    for item in items.as_slice() {
        check_sound(item);
    }
}

// The same of each member, and that the names rise.
#[cycle(soundness)]
fn check_members(members: &Members)
    ensures { IsTrue (rise (map (on_value sound) members.now) && all_values (map (on_value sound) members.now)) }
{
    for pair in members.as_slice() {
        check_sound(&pair.1);
    }
}
