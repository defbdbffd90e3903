// Texts of entity declarations and the tables written for them (document 02, K3; XML 1.0, 4.1 to 4.3): definitions in specs/, laws in proofs/.
#![tactic(auto)]
