// The two versions of a unit list (SCOPE 2): the theorem that every call that takes a list gives the same answer for both.

#![tactic(auto)]
