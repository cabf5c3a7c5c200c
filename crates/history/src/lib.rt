// Demand 3 of document 01: what the accepted calls alone say of each day and every account, and the proof that the ledger's book agrees.
// There is no code here: the figures and the statement are in specs/, the proof is in proofs/.
#![tactic(auto)]
