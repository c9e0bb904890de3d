// What trees of all languages share: the room for their nodes, and the operators that stand before a part.
ghost use Rattle.std.specs.Prelude.{◌≡◌, ◌+◌, OnOk};

use crate::odd::Odd;
use crate::operator::unary;
use qc_data::Json;
use qc_ops::Unary;
use std::alloc::Global;

/// The most nodes of a row's tree.
pub const MOST_NODES: u64 = 1_000_000;

/// Takes a node of the room.
pub fn take_node(room: &mut u64) -> Result<(), Odd>
    ensures { OnOk result (room.new + 1 ≡ room.old) }
{
    match room.checked_sub(1) {
        Some(less) => {
            *room = less;
            Ok(())
        }
        None => Err(Odd::Form),
    }
}

/// The operator on one value that the items describe: a word, its parameters and the part that it stands before.
pub fn operator_of(alloc: Global, word: &str, items: &[Json]) -> Result<Unary, Odd> {
    match items {
        [_, _] => unary(alloc, word, &[]),
        [_, parameter, _] => unary(alloc, word, &[parameter]),
        [_, name, names, _] => unary(alloc, word, &[name, names]),
        _ => Err(Odd::Form),
    }
}
