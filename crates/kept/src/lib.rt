// A list that the finder wrote, kept as a corner record. There is no code here.
#![tactic(auto)]
