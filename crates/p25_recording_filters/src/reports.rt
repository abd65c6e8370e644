//! The reports of the commands that read recordings.

mod calls;
mod changed;
mod check;
mod followed;
mod show;

pub use calls::Calls;
pub use changed::{Change, Changed, put_behind, put_octets};
pub use check::Check;
pub use followed::Followed;
pub(crate) use followed::put_item;
pub use show::Show;
