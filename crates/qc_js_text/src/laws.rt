// What reading and writing are to each other.
ghost use Rattle.std.specs.Prelude.{◌≡◌, ◌≤◌, ◌⊎◌, ℕ, List, IsTrue, Result, Ok, Err, length};
ghost use Rattle.qc_js.specs.declared.tree.Program.{Program};
ghost use Rattle.qc_js.specs.Held.{holds_program};
ghost use Rattle.qc_js.specs.Layout.{layout};
ghost use Rattle.qc_js.specs.Spelling.{Spells};
ghost use Rattle.qc_js.specs.Tokens.{program_tokens};
ghost use Rattle.qc_js.specs.WellFormed.{well_formed};
ghost use Rattle.qc_js_text.specs.Reading.{Answers, depth, most_bytes, most_open};
ghost use Rattle.qc_js_text.specs.declared.fault.JsFault.{JsFault};
ghost use Rattle.qc_js_text.specs.declared.fault.JsFault.TheVariants.{Memory};

use crate::parsing::table;

/// The law: what reading may answer (`Answers`) on the layout of a program within the limits is this program, or want
/// of memory. It does nothing.
pub fn layout_is_read_back()
    ensures { (p : Program) (r : Result Program JsFault) → IsTrue (holds_program p) → IsTrue (well_formed p)
        → length (layout p) ≤ most_bytes → depth (program_tokens p) ≤ most_open → Answers (layout p) r
        → (r ≡ Ok p) ⊎ (r ≡ Err Memory) }
{}

/// The law: a text spells at most one program. It does nothing.
pub fn one_program()
    ensures { (text : List ℕ) (p q : Program) → Spells text p → Spells text q → p ≡ q }
{
    let _table = table();
}
