#![tactic(auto)]

// Lists and decisions about them: this crate is mathematics only.
// specs/Lists.antt has the words; proofs/Lists.antt their laws, proofs/Places.antt those by places.
