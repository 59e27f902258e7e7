//! The tokens of Liberty, Verilog, SPEF and SDC texts.
//!
//! A text is cut into pieces from left to right: where a piece ended, the one that is there is the next. White
//! space, comments, attributes and directives are pieces beside the tokens. Each rule set is one function from the
//! bytes that are left to the piece at their front; cutting, lines, faults and spans are the same for all four.
#![tactic(auto)]

mod bytes;
mod class;
mod fault;
mod faults;
mod front;
mod liberty;
mod listing;
mod pieces;
mod rules;
mod runs;
mod sdc;
mod spef;
mod text_fault;
mod token;
mod token_texts;
mod unclosed;
mod verilog;

pub use bytes::last_line;
pub use fault::LexFault;
pub use faults::find_fault;
pub use listing::tokens;
pub use rules::{MOST_BYTES, Rules};
pub use text_fault::TextFault;
pub use token::{Kind, Token};
pub use token_texts::{Lexeme, Lexemes};
pub use xt_model::Code;
