// How many bytes suffice for the results of the calls for C (SCOPE 4.8): theorems about the definitions that the calls are proved against.

#![tactic(auto)]
