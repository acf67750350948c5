#![tactic(auto)]

// Triangulated polygons and their trees: this crate is mathematics only.
// specs/ has the definitions, proofs/ the laws; proofs/Theorems.antt is the place to start reading.
