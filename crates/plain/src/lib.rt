// The plain machines as code over `Vec`, held to their definitions.
#![tactic(auto)]

pub mod plain_line;
pub mod plain_machine;
pub mod plain_nest;
pub mod plain_pair;
pub mod replay;
