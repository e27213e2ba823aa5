//! Worked questions, answers and replays of slots: all of it stands in `specs/`, and nothing that runs stands on it.
#![tactic(auto)]
