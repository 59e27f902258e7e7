//! The grammar of a text as forms, whose reading and meaning are definitions (`specs/Forms.antt`,
//! `specs/Meaning.antt`), the cursor over a text's tokens that each reader shares, and which bytes may be a name.
#![tactic(auto)]

mod form_read;
mod name;
mod reader;
mod refused;
mod stop;
mod terms;

pub use form_read::FormRead;
pub use name::is_name;
pub use reader::{FormReader, read_all};
pub use refused::{Refused, tokens_refused};
pub use stop::Stop;
pub use terms::{Term, Terms, TokenSort};
