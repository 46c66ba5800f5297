//! What is read where a module, a module type or a file begins: the reading on lists of tokens.
#![tactic(auto)]
