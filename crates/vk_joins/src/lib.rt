//! When an object carries a unit, when an image joins objects, which variant a call is linked to, and when an image carries units.
#![tactic(auto)]
