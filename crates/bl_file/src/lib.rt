//! A file of the system as a device: it is added to at its end, cut and synced, by one program at a time.
//!
//!     stand      how the file stands, for clauses alone
//!     folder     the folder of a path
//!     answered   what shows that a file was added to, or cut
//!     kept       what shows that bytes and names are kept
//!     held       a file together with what its bytes are to outlive
//!     device     the file
//!     named      devices that are the file of a name
//!     calls      its calls, by which it is a device
//!     open       files that are made new, and files that are opened again
//!     lock       a file that one program at a time may have
#![tactic(auto)]

mod answered;
mod calls;
pub mod device;
mod folder;
mod held;
pub mod kept;
pub mod lock;
pub mod named;
pub mod open;
mod stand;
