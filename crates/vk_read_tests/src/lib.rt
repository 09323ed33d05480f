//! Tests of the scalar reading of programs: what they print, and how they end.
//!
//! What plain C prints is from gcc (`-fwrapv`); the order of evaluation, variables that begin as 0 and stops are by hand from the
//! language's rules.
#![tactic(auto)]

#[cfg(test)]
mod failing;
#[cfg(test)]
mod functions;
#[cfg(test)]
mod guards;
#[cfg(test)]
mod memory;
#[cfg(test)]
mod numbers;
#[cfg(test)]
mod order;
#[cfg(test)]
mod reads;
#[cfg(test)]
mod simd;
#[cfg(test)]
mod statements;
#[cfg(test)]
mod stops;
#[cfg(test)]
mod units;
