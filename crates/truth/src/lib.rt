// How true the blurred map is: its values beside whole-number sums. There is no code here.
#![tactic(auto)]
