// What a stage is asked and what it answers: the plain numbers of the calls, what they stand for, and the definition of a stage as a machine
// fed with calls.
// Promise: the laws of crop, shift and exchange hold of the definition, over every list of calls.
// The definition is specs/Calls.antt, specs/Checks.antt and specs/Machine.antt, the laws specs/Laws.antt, and in prose docs/STAGE.md.
#![tactic(auto)]

ghost use Rattle.std.specs.Prelude.{◌≡◌, true};
ghost use Rattle.machine.specs.Laws.{DefinitionLaws};

pub mod calls;
pub mod records;

pub use calls::{FrameRecord, Header, PatchRecord, Rectangle, Shown, Size, Stamp};

// Crop, shift and exchange hold of the definition.
pub fn definition_laws() -> bool
    ensures told { result ≡ true }
    ensures laws { DefinitionLaws }
{
    true
}
