// A stage seen from outside: what a call ensures of it, whatever its store, and the laws over runs of such calls.
// Promise: every run follows the definition, and crop, shift and exchange hold of any two runs over any stores.
// The relations are specs/View.antt and specs/Step.antt, the laws specs/Runs.antt, and in prose docs/STAGE.md.
#![tactic(auto)]

ghost use Rattle.std.specs.Prelude.{◌≡◌, true};
ghost use Rattle.views.specs.Runs.{Laws};

// What every run of a stage keeps to.
pub fn laws() -> bool
    ensures told { result ≡ true }
    ensures laws { Laws }
{
    true
}
