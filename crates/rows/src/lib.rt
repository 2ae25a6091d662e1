// Laws of lists and of rings, over the room and over the element's type: the crate is its specs/. There is no code.
#![tactic(auto)]
