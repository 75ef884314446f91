#![tactic(auto)]

// The statements of the vote: specs/Vote.antt. There is no code.
