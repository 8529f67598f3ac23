// Worked sums over formulas and regions.
// Promise: every sum of the list in specs/Sums.antt holds of the definitions that the kernels and regions are proved against.
#![tactic(auto)]

ghost use Rattle.std.specs.Prelude.{◌≡◌, length};
ghost use Rattle.sums.specs.Sums.{AllHold, checked_sums};

// How many sums there are; all of them hold.
pub fn checked_sums() -> usize
    ensures count { result ≡ length checked_sums }
    ensures hold { AllHold checked_sums }
{
    11
}
