//! Small units of which the definitions compute the calls, shapes, captures and sizes, and small functions of which they compute the
//! candidates and choices. Expected lists are those of an independent reading of the rules.
#![tactic(auto)]
