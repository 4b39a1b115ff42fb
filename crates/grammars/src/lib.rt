//! Grammars over tokens.
#![tactic(auto)]
