#![tactic(auto)]
// Delivery in order, never starved: theorems about the reliable channel's two ends. There is no code here; specs/ has the world and the
// statements, proofs/ their proofs.
