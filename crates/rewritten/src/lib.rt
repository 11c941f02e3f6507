// A full record that was read, written again (SCOPE 4.10): theorems about the definitions that the public calls are proved against.

#![tactic(auto)]
