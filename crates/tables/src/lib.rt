// Tables of gates.
#![tactic(auto)]
