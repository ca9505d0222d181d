// Runs of the engine and of the ledger: the definitions that the crates above share, with worked runs. There is no code.
#![tactic(auto)]
