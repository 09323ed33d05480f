//! Tests of images from bytes and as bytes.
#![tactic(auto)]

#[cfg(test)]
mod bytes;
#[cfg(test)]
mod changes;
#[cfg(test)]
mod reading;
#[cfg(test)]
mod told;
#[cfg(test)]
mod wholes;
#[cfg(test)]
mod writing;
