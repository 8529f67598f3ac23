// Tests of the leaves on examples and at their limits: regions, kernels, pictures, stores, and the texts of lay.
#![tactic(auto)]

#[cfg(test)]
mod far;
#[cfg(test)]
mod kernels;
#[cfg(test)]
mod lay_texts;
#[cfg(test)]
mod pictures;
#[cfg(test)]
mod regions;
#[cfg(test)]
mod stores;
