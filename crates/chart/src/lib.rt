// The figures of document 01's wall chart. They are computed from the definitions alone, so this crate has a theorem and no function.
#![tactic(auto)]
