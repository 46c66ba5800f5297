//! What the events of each kind of tree make of a state: definitions, and a rule for each form.
#![tactic(auto)]
