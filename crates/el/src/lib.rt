// What the logic says: definitions and laws in specs/, and no code.
#![tactic(auto)]
