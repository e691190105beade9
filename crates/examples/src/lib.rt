// Lists of calls worked out by computation, as theorems: the claims are not empty. No function.
#![tactic(auto)]
