// Tests of the laws on runs: two stages over different stores are taken through one list of calls, and what they answer and show is compared.
// The calls are played.rt, the comparisons alike.rt; each law has a test in laws.rt.
#![tactic(auto)]

#[cfg(test)]
mod alike;
#[cfg(test)]
mod laws;
#[cfg(test)]
mod played;
