//! The words of a script's lines: fixed texts, numbers, paths, flags with modes, the bytes of
//! writes, seeks and devices.
//!
//! Which words spell which value of each kind is one definition (specs/Spelling.antt). Reading and
//! printing both keep to it.
#![tactic(auto)]

mod device;
mod flags;
mod mode;
mod number;
mod parts;
mod path;
mod payload;
mod printing;
mod refusal;
mod seek;
mod words;

pub use device::Device;
pub use flags::Flags;
pub use number::{LARGEST_NUMBER, number_in};
pub use parts::cut;
pub use printing::{
    print_first, print_key, print_mode, print_number, print_numbers, print_opening, print_path,
    print_payload, print_target, print_whence,
};
pub use refusal::WordRefusal;
pub use seek::Seek;
pub use words::Words;
