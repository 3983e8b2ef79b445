//! Fields of bytes: numbers, flags, texts and lists of texts, written and read again.
//!
//! Numbers have their greatest place first. A text is its length in four bytes and then itself, a
//! list is how many items it has in four bytes and then each of them. `specs/Encodings.antt` has
//! the bytes, and `specs/Codes.antt` says what it means to be read at a place.
//!
//! Each reader takes a place, counted from 0 and allowed past the end, and gives what stands there
//! with the place behind it, or none exactly where no such bytes begin.
#![tactic(auto)]

mod laws;
mod lists;
mod pairs;
mod scalars;
mod texts;

pub use laws::{fields_tell_their_ends, what_was_put_begins_there, what_was_put_is_read_again};
pub use lists::{Element, Found, get_list, put_list};
pub use pairs::paired;
pub use scalars::{
    get_byte, get_eight, get_flag, get_four, put_byte, put_eight, put_flag, put_four,
};
pub use texts::{Texts, get_text, get_texts, put_text, put_texts};
