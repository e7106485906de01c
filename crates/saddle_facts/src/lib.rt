// Facts of the saddle test that are computed for each ray radius. There is no code here.
#![tactic(auto)]
