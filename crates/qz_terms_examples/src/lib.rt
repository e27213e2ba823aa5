//! Worked lines of what is asked, answered and kept, and every schedule of turns: all of it stands in `specs/`, and nothing that runs stands
//! on it.
#![tactic(auto)]
