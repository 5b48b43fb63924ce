// The engine as a C library: each operation on numbers and slices. A call returns how it went, and writes a row of one length with one meaning at each place.
#![tactic(auto)]

pub mod classes;
pub mod files;
pub(crate) mod reply;
pub mod sheets;
pub mod solver;
pub mod steps;

ghost use Rattle.std.specs.Prelude.{◌≡◌};
ghost use Rattle.desk.specs.Rows as row;

// How a call went: answered, refused with a question's number and place, or with 17, the number of a list and a place in it.
#[derive(Clone, Copy)]
pub(crate) enum Head {
    Answered(u32),
    Refused(u8, u32),
    Malformed(u32, u32),
}

// The number of this version, as the pkg-config file has it.
#[tactic(auto, unfolding(crate::specs::Rows::version))]
#[unsafe(no_mangle)]
pub extern "C" fn pizwoter_version() -> u32
    ensures { result ≡ row.version }
{
    3
}
