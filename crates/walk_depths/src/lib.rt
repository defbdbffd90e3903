// The depth that a value needs: definitions and laws. The code is in walk_least_depth.
#![tactic(auto)]
