// What `statement` prints, line by line and byte by byte. These are definitions and theorems about them, so this crate has no function.
#![tactic(auto)]
