// The laws of flat maps: buffers that a pass fills, sums along their lines, places in row order. Definitions stand in specs/, laws in proofs/.
#![tactic(auto)]
