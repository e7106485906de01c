// Frames run through the Rust's text of crates/as_rust, with the numbers that the compiled Rust gave. There is no code here.
#![tactic(auto)]
