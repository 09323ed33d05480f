//! What the text of a function tells of its code: its calls in order, its simd loops, the objects that it names, how arguments hang
//! together over lanes, and how long its code may be.
#![tactic(auto)]
