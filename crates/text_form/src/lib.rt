// Steps from a text: definitions and theorems alone.
#![tactic(auto)]
