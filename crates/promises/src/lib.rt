#![tactic(auto)]

// The three demands on Bend as theorems over the definitions that the operations' contracts cite. Mathematics only.
// specs/DemandOne.antt, DemandTwo.antt and DemandThree.antt say what is promised, one record each; proofs/ proves them: `demand_one`,
// `demand_two`, `demand_three` and `same_chart`. specs/Known.antt lists the known parts.
