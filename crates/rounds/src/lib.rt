// The laws of saturation's rounds, in specs/. There is no code here.
#![tactic(auto)]
