//! Whole calls of `lanes` with what they print, by hand and by what gcc makes of the same functions.
#![tactic(auto)]

#[cfg(test)]
mod guards;
#[cfg(test)]
mod kinds;
#[cfg(test)]
mod letters;
#[cfg(test)]
mod masks;
#[cfg(test)]
mod others;
#[cfg(test)]
mod rows;
#[cfg(test)]
mod types;
