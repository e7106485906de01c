// The Rust of chess-corners-rs (commit fbc3e85b96), as definitions in specs/, and the proofs that ours equal them. There is no code here.
#![tactic(auto)]
