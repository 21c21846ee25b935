// The demands as theorems about the definitions, one file a demand. In specs/; there is no code here.
#![tactic(auto)]
