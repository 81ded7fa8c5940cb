// No code: what whole lists of calls do to archives. The statements are in specs/, the theorems in proofs/.
#![tactic(auto)]
