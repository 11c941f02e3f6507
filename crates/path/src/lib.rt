// The whole path of a still, from compact record to split stream (SCOPE 5): theorems about the definitions that the public calls are proved against.

#![tactic(auto)]
