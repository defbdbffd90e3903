// The owner's demands, proved of the calls and of the definitions that they answer by: the statements are in specs/, the laws in proofs/.
// No code stands here; that of demands 2 and 3, which runs the calls one after the other, is in the crate again.
#![tactic(auto)]
