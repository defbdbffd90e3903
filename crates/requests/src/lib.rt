// What the customers' requests (document 02) ask of the calls: statements in specs/, a file for each request, proved in proofs/.
#![tactic(auto)]
