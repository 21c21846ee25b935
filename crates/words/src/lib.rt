// Words as sets, and lists: definitions and their laws, in specs/. There is no code here.
#![tactic(auto)]
