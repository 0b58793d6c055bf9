//! What holds of the chunks that collectors pass on to watchers, over all histories. It runs nothing.
#![tactic(auto)]

mod laws;

pub use laws::{
    law_passed_is_one, law_passed_is_there, law_passed_on_is_message, law_passed_rises,
    law_printed_is_passed,
};
