// The forecast's pairs: definitions and laws. The code is in walk_forecast.
#![tactic(auto)]
