// A closed table accepts every configuration with a run into the target: theorems, in specs/. There is no code here.
#![tactic(auto)]
