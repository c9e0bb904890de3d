// What declared variables hold.
ghost use Rattle.std.specs.Option.{option_copied};
ghost use Rattle.std.specs.Prelude.{◌≡◌, ◌<◌, length, drop, IfNone, IfSome, Some};
ghost use Rattle.qc_js.specs.Meaning.{done, pushed_to, set_to, value_in};
ghost use Rattle.qc_js_run.specs.inner.Stores.{Becomes, FirstAlone, NoneOf, seen};

use qc_data::{Halt, Json, Jsons};

// What a declared variable holds.
#[derive(Drop)]
pub(crate) enum Slot {
    // One that may be set: its value, once it has one.
    Settable(Option<Json>),
    // One that stands for a value for good.
    Constant(Json),
    // One that is pushed to: what was pushed, which nothing else shares.
    Collecting(Jsons),
}

// The value of a variable that may be read.
pub(crate) fn value_in(slot: &Slot) -> Option<&Json>
    ensures { option_copied result ≡ value_in (Some (seen slot.now)) }
{
    match slot {
        Slot::Settable(Some(value)) => Some(value),
        Slot::Constant(value) => Some(value),
        _ => None,
    }
}

// Sets a variable to the value.
pub(crate) fn set_to(slot: &mut Slot, value: Json) -> Result<(), Halt>
    ensures { Becomes (set_to value (seen slot.old)) slot.new result }
{
    match slot {
        Slot::Settable(_) => {
            *slot = Slot::Settable(Some(value));
            Ok(())
        }
        _ => Err(Halt::Stuck),
    }
}

// Pushes the value to a variable.
pub(crate) fn push_to(slot: &mut Slot, value: Json) -> Result<(), Halt>
    ensures { Becomes (pushed_to value (seen slot.old)) slot.new result }
{
    match slot {
        Slot::Collecting(items) => Ok(items.add(value)?),
        _ => Err(Halt::Stuck),
    }
}

// Where the newest slot of a variable stands.
pub(crate) fn newest(slots: &[(u128, Slot)], variable: u128) -> Option<usize>
    ensures within { IfSome result (λ at. at < length slots.now) }
    ensures newest { IfSome result (λ at. FirstAlone variable (drop at slots.now)) }
    ensures none { IfNone result (NoneOf variable slots.now) }
{
    let mut at = slots.len();
    while at > 0 {
        at -= 1;
        if slots[at].0 == variable {
            return Some(at);
        }
    }
    None
}

// A collector that is done is a constant.
pub(crate) fn done(slot: Slot) -> Slot
    ensures { seen result ≡ done (seen slot) }
{
    match slot {
        Slot::Collecting(items) => Slot::Constant(Json::Array(items)),
        _ => slot,
    }
}
