//! Small programs of which the definitions of `vk_meaning` compute the meaning. The C text of each stands over it.
#![tactic(auto)]
