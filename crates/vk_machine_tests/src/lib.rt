//! Tests of the machine on small images.
#![tactic(auto)]

#[cfg(test)]
mod calls;
#[cfg(test)]
mod images;
#[cfg(test)]
mod operations;
#[cfg(test)]
mod prints;
#[cfg(test)]
mod simd_loops;
