//! Lemmas on truths, numbers, lists and the turns of a loop that std lacks and that several crates
//! cite. All of it is in `proofs/`, one topic a file: it has no code, and stands on std alone.
#![tactic(auto)]
