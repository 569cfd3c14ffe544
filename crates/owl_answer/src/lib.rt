// What is answered to an OWL text, and what the answer is worth: in specs/, and no code yet.
#![tactic(auto)]
