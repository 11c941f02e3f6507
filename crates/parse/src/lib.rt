// Parsers and outcomes, which the definitions are written in, and their laws; general laws of lists, booleans and stores. There is no code.

#![tactic(auto)]
