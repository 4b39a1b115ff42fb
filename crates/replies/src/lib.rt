//! What a call does to the files and the sink, step by step, and the status that it ends with.
#![tactic(auto)]

mod calls;
mod files;
mod laws;
mod refusals;
mod status;
mod stop;

pub use calls::{read, replace, replace_and_say, say, written};
pub use files::{MOST_BYTES, ask, fit_together};
pub use laws::{plans_join, replies_tell, steps_join};
pub use refusals::{refusal, refused_size};
pub use status::{close, out_of_memory, usage};
pub use stop::Stop;
