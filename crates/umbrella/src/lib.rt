// Umbrella plans of the pieces of a triangulated polygon: specs/ has the definitions, proofs/ the laws; proofs/Theorems.antt is the place to start reading.
// roles.rt is the one walk of the plan drawn, for counting, columns and rows.
#![tactic(auto)]

pub mod roles;
