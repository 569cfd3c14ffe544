// What an OWL file says: its tree, its meaning, its written form and its table, in specs/, and no code.
#![tactic(auto)]
