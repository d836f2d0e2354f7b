// Tables with the vertices of polygon lines redrawn: definitions in specs/, theorems in proofs/. No code.
#![tactic(auto)]
