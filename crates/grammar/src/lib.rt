// The grammar of filters: definitions and laws. It has no function.
#![tactic(auto)]
