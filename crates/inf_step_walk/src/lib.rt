//! Steps of a compilation by the changes that they are made of, so that a law of steps has to be shown of the changes alone.
#![tactic(auto)]
