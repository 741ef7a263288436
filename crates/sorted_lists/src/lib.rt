//! Laws of lists in order: the place of an element, a list with it and without it, and lists in parts.
#![tactic(auto)]
