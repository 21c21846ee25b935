// Case and start files: from bytes to a refusal's number or a decoded case or start. Definitions and laws, in specs/; there is no code here.
#![tactic(auto)]
