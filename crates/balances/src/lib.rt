// Lists of calls and the balances of demand 3. They are theorems about the definitions alone, so this crate has no function.
#![tactic(auto)]
