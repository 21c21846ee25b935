// The guided run on cells: it is a decorated walk, and what guide writes is a prefix of it. Theorems, in specs/. There is no code here.
#![tactic(auto)]
