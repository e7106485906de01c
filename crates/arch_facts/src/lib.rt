// What holds of a call for all cameras of an arch. There is no code here.
#![tactic(auto)]
